// Which lists of leaves are one well-typed tree.

ghost use Rattle.std.specs.Prelude.{◌≡◌, ◌+◌, ◌≤◌, ◌++◌, ◌∷◌, [], IsTrue, IfNone, Some, None, ◌↔◌};
ghost use Rattle.std.specs.Option.{option_to_list};
ghost use Rattle.tree_core.specs.declared.token.Sort.TheVariants as sort;
ghost use Rattle.tree_core.specs.Trees.{stands_for, walk, IsTyped, GrowsBack};
ghost use Rattle.tree_core.specs.Wanted.{wanted_sorts, Keeps, CanPush, IsLast};

use crate::token::Sort;
use crate::tree::Leaf;

/// Whether the leaves are those of one well-typed tree of the sort, whose attributes fit their
/// tokens, and then one `End`. A place may stand for the value that it holds.
pub fn typed(leaves: &[Leaf], sort: Sort) -> bool
    ensures { IsTrue result ↔ IsTyped leaves.now sort }
{
    walks(leaves, sort)
}

// Whether the sorts that are wanted are met one after another, up to one `End`.
fn walks(leaves: &[Leaf], sort: Sort) -> bool
    ensures { result ≡ walk (sort ∷ []) leaves.now }
{
    let mut wanted = Wanted {
        first: Some(sort),
        longs: 0,
        last: None,
    };
    let mut rest = leaves;
    while let Some(next) = wanted.pop() {
        let Some((leaf, behind)) = rest.split_first() else {
            return false;
        };
        if !stands_for(*leaf, next) {
            return false;
        }
        wanted.push(leaf.tok.kids());
        rest = behind;
    }
    is_only_end(rest)
}

// Whether the leaf may stand where a tree of the sort is wanted.
fn stands_for(leaf: Leaf, wanted: Sort) -> bool
    ensures { result ≡ stands_for leaf wanted }
{
    match leaf.tok.sort() {
        None => false,
        Some(sort) => sort.fits(wanted) && leaf.fits(),
    }
}

fn is_only_end(leaves: &[Leaf]) -> bool
    ensures { result ≡ walk [] leaves.now }
{
    match leaves {
        [leaf] => leaf.is_end(),
        _ => false,
    }
}

// The sorts that are wanted one after another. Below a statement's second kid all second kids are
// longs, so that a count of them is enough.
#[derive(Clone, Copy)]
struct Wanted {
    first: Option<Sort>,
    longs: usize,
    last: Option<Sort>,
}

impl Wanted {
    // The sort that is wanted next.
    fn pop(&mut self) -> Option<Sort>
        ensures sorts { wanted_sorts self.old ≡ option_to_list result ++ wanted_sorts self.new }
        ensures none { IfNone result (wanted_sorts self.old ≡ []) }
        ensures taken { self.new.first ≡ None }
        ensures fewer { self.new.longs ≤ self.old.longs }
        ensures last { Keeps self.old → result ≡ Some sort.Stmt → IsLast self.new }
    {
        if let Some(sort) = self.first {
            self.first = None;
            return Some(sort);
        }
        if self.longs > 0 {
            self.longs -= 1;
            return Some(Sort::Long);
        }
        let last = self.last;
        self.last = None;
        last
    }

    // The sorts of kids are wanted next.
    fn push(&mut self, kids: &[Sort])
        requires { CanPush kids.now self.old }
        ensures sorts { wanted_sorts self.new ≡ kids.now ++ wanted_sorts self.old }
        ensures keeps { Keeps self.new }
        ensures more { self.new.longs ≤ self.old.longs + 1 }
    {
        match kids {
            [] => {}
            [kid] => self.first = Some(*kid),
            [kid, Sort::Long] => {
                self.first = Some(*kid);
                self.longs += 1;
            }
            [kid, other] => {
                self.first = Some(*kid);
                self.last = Some(*other);
            }
            _ => unreachable!(),
        }
    }
}

/// The law of trees and their leaves: leaves of well-typed trees, read from the right, give those
/// trees back. It does nothing.
#[tactic(auto, using(crate::proofs::Law::grows_back))]
pub fn trees_grow_back()
    ensures { GrowsBack }
{}
