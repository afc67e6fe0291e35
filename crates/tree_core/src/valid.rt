// Which tree programs are valid.

ghost use Rattle.std.specs.Prelude.{◌≡◌, ◌↔◌, ◌≤◌, ℕ, nat_lt, List, IsTrue, length};
ghost use Rattle.std.specs.List.{All, AllPass, list_all};
ghost use Rattle.tree_core.specs.Valid.{main_takes_nothing, args_of, leaf_names, names, ItemStands, ItemsStand, PushesStand};
ghost use Rattle.tree_core.specs.Locals.{LocalsStand};
ghost use Rattle.tree_core.specs.Valid.{IsValid, NamesRight, WantedStand};

use crate::items::calls_in_order;
use crate::labels::{labels_stand_once, targets_stand};
use crate::names::{count_named, names_differ};
use crate::numbers::numbers_differ;
use crate::objects::{links_lie, objects_lie};
use crate::program::{TreeFn, TreeItem, TreeProgram};
use crate::token::{AttKind, Sort};
use crate::tree::{Att, Leaf};
use crate::typing::typed;

impl TreeProgram {
    /// Whether the program is valid: its names, trees, wanted locals, labels, calls, objects and
    /// links are as the tree language has them.
    pub fn valid(&self) -> bool
        ensures { IsTrue result ↔ IsValid self.now }
    {
        let functions = self.functions.as_slice();
        let objects = self.objects.as_slice();
        if !names_are_right(functions) {
            return false;
        }
        if !roots_stand(functions, objects.len()) {
            return false;
        }
        if !wanted_stand(functions) {
            return false;
        }
        if !labels_stand_once(functions) {
            return false;
        }
        if !targets_stand(functions) {
            return false;
        }
        if !pushes_stand(functions) {
            return false;
        }
        if !objects_lie(objects) {
            return false;
        }
        links_lie(objects)
    }
}

fn names_are_right(functions: &[TreeFn]) -> bool
    ensures { IsTrue result ↔ NamesRight functions.now }
{
    if count_named(functions, b"main") != 1 || !main_takes_nothing(functions) {
        return false;
    }
    if count_named(functions, b"putchar") != 0 || count_named(functions, b"getchar") != 0 {
        return false;
    }
    names_differ(functions)
}

fn main_takes_nothing(functions: &[TreeFn]) -> bool
    ensures { IsTrue result ↔ AllPass main_takes_nothing functions.now }
{
    let main = b"main".as_slice();
    functions.iter().all(|function| function.name.as_slice() != main || function.args == 0)
}

fn roots_stand(functions: &[TreeFn], objects: usize) -> bool
    ensures { IsTrue result ↔ All (ItemsStand functions.now objects) functions.now }
{
    functions
        .iter()
        .all(|function| items_stand(functions, objects, function))
}

fn items_stand(functions: &[TreeFn], objects: usize, function: &TreeFn) -> bool
    ensures { IsTrue result ↔ ItemsStand functions.now objects function.now }
{
    function
        .items
        .as_slice()
        .iter()
        .all(|item| item_stands(functions, objects, function, item))
}

// Whether a root is a typed statement whose leaves name what is there.
fn item_stands(functions: &[TreeFn], objects: usize, function: &TreeFn, item: &TreeItem) -> bool
    ensures { IsTrue result ↔ ItemStands functions.now objects function.now item.now }
{
    match item {
        TreeItem::Label(_) => true,
        TreeItem::Root(leaves) => {
            typed(leaves.as_slice(), Sort::Stmt)
                && leaves_name(functions, objects, function, leaves.as_slice())
        }
    }
}

fn leaves_name(functions: &[TreeFn], objects: usize, function: &TreeFn, leaves: &[Leaf]) -> bool
    ensures { IsTrue result ↔ AllPass (leaf_names functions.now objects function.now) leaves.now }
{
    leaves
        .iter()
        .all(|leaf| leaf_names(functions, objects, function, *leaf))
}

// Whether the local, argument, object or function that the leaf names is there.
fn leaf_names(functions: &[TreeFn], objects: usize, function: &TreeFn, leaf: Leaf) -> bool
    ensures { result ≡ leaf_names functions.now objects function.now leaf }
{
    match (leaf.tok.attribute(), leaf.att) {
        (AttKind::Local, Att::Slot(number)) => number < function.locals,
        (AttKind::Argument, Att::Slot(number)) => number <= function.args,
        (AttKind::Object, Att::Object { object, .. }) => (object as usize) < objects,
        (
            AttKind::Callee,
            Att::Callee {
                function: callee,
                count,
            },
        ) => { args_of(functions, callee) == Some(count) }
        _ => true,
    }
}

/// How many arguments a call takes of the function with a number: behind the functions of the
/// program come `putchar`, with one, and `getchar`, with none. None where there is no such function.
pub fn args_of(functions: &[TreeFn], number: u32) -> Option<u32>
    ensures { result ≡ args_of functions.now number }
{
    let number = number as usize;
    match functions.get(number) {
        Some(function) => Some(function.args),
        None if number == functions.len() => Some(1),
        None if number - functions.len() == 1 => Some(0),
        None => None,
    }
}

fn wanted_stand(functions: &[TreeFn]) -> bool
    ensures { IsTrue result ↔ All WantedStand functions.now }
{
    functions.iter().all(|function| locals_stand(function.locals, function.wanted.as_slice()))
}

// Whether the numbers are below how many locals there are, and differ.
fn locals_stand(locals: u32, numbers: &[u32]) -> bool
    ensures { IsTrue result ↔ LocalsStand locals numbers.now }
{
    are_locals(locals, numbers) && numbers_differ(numbers)
}

fn are_locals(locals: u32, numbers: &[u32]) -> bool
    ensures { IsTrue result ↔ AllPass (λ n. nat_lt n locals) numbers.now }
{
    numbers.iter().all(|number| *number < locals)
}

fn pushes_stand(functions: &[TreeFn]) -> bool
    ensures { IsTrue result ↔ All PushesStand functions.now }
{
    functions
        .iter()
        .all(|function| calls_in_order(function.items.as_slice()))
}
