// The arguments of calls.
ghost use Rattle.std.specs.Prelude.{◌≡◌, ◌++◌, [], IfOk, OnOk};
ghost use Rattle.c_lower_scheme.specs.Parts as parts;
ghost use Rattle.c_lower_scheme.specs.Parts.{InLocal};
ghost use Rattle.c_lower_scheme.specs.Calls as calls;
ghost use Rattle.c_lower_parts.specs.Views.{tree, all_items, all_trees, low, passing, done, destination};

use crate::item::Item;
use crate::part::{
    Destination, Emitted, Frame, Free, Lowered, Passing, after, after_if, delivered, put, put_all,
    put_saved,
};
use crate::tree::{Tree, boxed, fitted};
use c_types::{CType, Callee};
use gg_base::{NoMemory, number_of};
use std::alloc::Global;

/// The number of what is called: the services stand behind the program's functions.
pub fn callee_number(functions: u32, callee: Callee) -> Result<u32, NoMemory>
    ensures { IfOk result (λ n. n ≡ calls.callee_number functions callee) }
{
    match callee {
        Callee::Defined(f) => Ok(f),
        Callee::Putchar => Ok(functions),
        Callee::Getchar => after(functions),
    }
}

// The last argument is pushed first.
fn push_all(items: &mut Vec<Item>, trees: Vec<Tree>) -> Result<(), NoMemory>
    ensures { OnOk result (all_items items.new.items ≡ all_items items.old.items ++ calls.pushes (all_trees trees.items) []) }
{
    for tree in trees.into_iter().rev() {
        put(items, Item::Push(tree))?;
    }
    Ok(())
}

/// A call whose result is dropped.
pub fn called_drop(f: u32, p: Passing) -> Result<Emitted, NoMemory>
    ensures { IfOk result (λ r. done r ≡ calls.called_drop f (passing p)) }
{
    let count = number_of(p.trees.len())?;
    let mut items = p.items;
    push_all(&mut items, p.trees)?;
    put(&mut items, Item::Call(f, count))?;
    Ok(Emitted {
        items,
        free: p.free,
    })
}

/// A call, whose result is saved directly behind it.
pub fn called_low(alloc: Global, f: u32, p: Passing) -> Result<Lowered, NoMemory>
    ensures { IfOk result (λ r. low r ≡ calls.called_low f (passing p)) }
{
    let temps = after(p.free.temps)?;
    let count = number_of(p.trees.len())?;
    let mut items = p.items;
    push_all(&mut items, p.trees)?;
    put(&mut items, Item::Call(f, count))?;
    put(&mut items, Item::Save(p.free.temps))?;
    let tree = boxed(alloc, Tree::Local(p.free.temps))?;
    Ok(Lowered {
        items,
        tree,
        free: Free {
            temps,
            labels: p.free.labels,
        },
    })
}

// A call whose result is saved in a local.
fn called_into(n: u32, f: u32, p: Passing) -> Result<Emitted, NoMemory>
    ensures { IfOk result (λ r. done r ≡ calls.called_deliver (InLocal n) f (passing p)) }
{
    let count = number_of(p.trees.len())?;
    let mut items = p.items;
    push_all(&mut items, p.trees)?;
    put(&mut items, Item::Call(f, count))?;
    put(&mut items, Item::Save(n))?;
    Ok(Emitted {
        items,
        free: p.free,
    })
}

/// A call whose result goes to a destination: a local takes it directly behind the call.
pub fn called_deliver(
    alloc: Global,
    to: Destination,
    f: u32,
    p: Passing,
) -> Result<Emitted, NoMemory>
    ensures { IfOk result (λ r. done r ≡ calls.called_deliver (destination to) f (passing p)) }
{
    match to {
        Destination::Local(n) => called_into(n, f, p),
        Destination::Caller => delivered(alloc, to, called_low(alloc, f, p)?),
        Destination::Release(_, _) => delivered(alloc, to, called_low(alloc, f, p)?),
    }
}

/// An argument that is converted to its parameter's type, the first of these.
pub fn passed_as(alloc: Global, to: &[CType], p: Lowered) -> Result<Lowered, NoMemory>
    ensures { IfOk result (λ r. low r ≡ parts.over (calls.passed_as to.now) (low p)) }
{
    match to.first() {
        None => Ok(p),
        Some(t) => {
            let tree = fitted(alloc, *t, p.tree)?;
            Ok(Lowered {
                items: p.items,
                tree,
                free: p.free,
            })
        }
    }
}

/// The types of the parameters behind the first.
pub fn others(to: &[CType]) -> &[CType]
    ensures { result.now ≡ calls.others to.now }
{
    match to.split_first() {
        None => to,
        Some((_, rest)) => rest,
    }
}

/// No arguments.
pub fn no_arguments(alloc: Global, free: Free) -> Passing
    ensures { passing result ≡ calls.no_arguments free.temps free.labels }
{
    Passing {
        items: Vec::new(alloc),
        trees: Vec::new(alloc),
        is_quiet: true,
        free,
    }
}

// Whether an argument is saved before those behind it are evaluated.
fn must_pass(frame: Frame, w: &Tree, q: &Passing) -> bool
    ensures { result ≡ calls.must_pass frame.locals frame.functions (tree w.now) (passing q.now) }
{
    !q.trees.is_empty() && !(w.is_stable(frame.locals) || q.is_quiet && !w.breaks())
}

/// One more argument in front.
pub fn pass_on(frame: Frame, p: Lowered, q: Passing) -> Result<Passing, NoMemory>
    ensures { IfOk result (λ r. passing r ≡ calls.pass_on frame.locals frame.functions (low p) (passing q)) }
{
    let is_saved = must_pass(frame, &p.tree, &q);
    let is_quiet = p.items.is_empty() && q.is_quiet;
    let temps = after_if(is_saved, q.free.temps)?;
    let mut items = p.items;
    let first = put_saved(frame.alloc, &mut items, is_saved, q.free.temps, p.tree)?;
    put_all(&mut items, q.items)?;
    let mut trees = Vec::new(frame.alloc);
    trees.push(Box::into_inner(first))?;
    let mut rest = q.trees;
    trees.append(&mut rest)?;
    Ok(Passing {
        items,
        trees,
        is_quiet,
        free: Free {
            temps,
            labels: q.free.labels,
        },
    })
}
