// Tree patterns: which right sides are one tree in prefix order, with parts of the sorts wanted.
ghost use Rattle.std.specs.Prelude.{◌≡◌, ◌≤◌, ◌++◌, [], ◌∷◌, length, reverse, IfOk, OnOk};
ghost use Rattle.md_reader.specs.Patterns.{sort_of_kind, kind_at, kids_of, sort_of_symbol, sorted_test, walk, count};
ghost use Rattle.tree_core.specs.declared.token.Sort.TheVariants as sort;
ghost use Rattle.tree_core.specs.Trees.{sort_fits};

use crate::types::{Class, Kind, Sym};
use gg_base::{NoMemory, Size};
use std::alloc::Global;
use tree_core::Sort;

fn sort_of_kind(kind: Kind) -> Sort
    ensures { result ≡ sort_of_kind kind }
{
    match kind {
        Kind::Reg | Kind::Con | Kind::Ea => Sort::Long,
        Kind::Value(Size::Byte) => Sort::Byte,
        Kind::Value(Size::Word) => Sort::Word,
        Kind::Value(Size::Long) => Sort::Long,
        Kind::Place(Size::Byte) => Sort::PlaceB,
        Kind::Place(Size::Word) => Sort::PlaceW,
        Kind::Place(Size::Long) => Sort::PlaceL,
        Kind::Nothing => Sort::Stmt,
    }
}

/// The kind of the class with this number.
pub fn kind_at(classes: &[Class], class: u16) -> Option<Kind>
    ensures { result ≡ kind_at classes.now class }
{
    match classes.get(class as usize) {
        Some(class) => Some(class.kind),
        None => None,
    }
}

#[tactic(auto, using(crate::proofs::PatternLaws::kids_few))]
fn kids_of(sym: Sym) -> &'static [Sort]
    ensures are { result.now ≡ kids_of sym }
    ensures few { length result.now ≤ 2 }
{
    match sym {
        Sym::Tok(tok) => tok.kids(),
        Sym::Class(_) => &[],
    }
}

/// The sort of the trees that begin with the symbol.
pub fn sort_of_symbol(classes: &[Class], sym: Sym) -> Option<Sort>
    ensures { result ≡ sort_of_symbol classes.now sym }
{
    match sym {
        Sym::Tok(tok) => tok.sort(),
        Sym::Class(class) => match kind_at(classes, class) {
            Some(kind) => Some(sort_of_kind(kind)),
            None => None,
        },
    }
}

fn sort_fits(sort: Option<Sort>, wanted: Sort) -> bool
    ensures { result ≡ sort_fits sort wanted }
{
    match sort {
        Some(sort) => sort.fits(wanted),
        None => false,
    }
}

/// Whether the symbols are one tree in prefix order.
pub fn is_tree(right: &[Sym]) -> bool
    requires { length right.now ≤ 16 }
    ensures { result ≡ count 1 right.now }
{
    let mut wanted: usize = 1;
    for sym in right {
        if wanted == 0 {
            return false;
        }
        wanted = kids_of(*sym).len() + (wanted - 1);
    }
    wanted == 0
}

fn put_kids(stack: &mut Vec<Sort>, kids: &[Sort]) -> Result<(), NoMemory>
    ensures { OnOk result (reverse stack.new.items ≡ kids.now ++ reverse stack.old.items) }
{
    for kid in kids.iter().rev() {
        stack.push(*kid)?;
    }
    Ok(())
}

/// Whether the symbols are one tree of the sort, each of whose parts has the sort wanted there.
pub fn is_sorted(
    alloc: Global,
    classes: &[Class],
    left: Sort,
    right: &[Sym],
) -> Result<bool, NoMemory>
    ensures { IfOk result (λ b. b ≡ walk (sorted_test classes.now) (left ∷ []) right.now) }
{
    let mut stack = Vec::new(alloc);
    stack.push(left)?;
    for sym in right {
        let Some(wanted) = stack.pop() else {
            return Ok(false);
        };
        if !sort_fits(sort_of_symbol(classes, *sym), wanted) {
            return Ok(false);
        }
        put_kids(&mut stack, kids_of(*sym))?;
    }
    Ok(stack.is_empty())
}
