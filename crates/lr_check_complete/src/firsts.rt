// The sums of the first of two kids, one for each list.
ghost use Rattle.std.specs.Prelude.{◌≡◌, ◌⊎◌, ℕ, [], ◌∷◌, OnOk, IfOk, IsTrue, Contains};
ghost use Rattle.tree_core.specs.declared.token.Sort.{Sort};
ghost use Rattle.lr_check_found.specs.lr_check_sets.specs.Trees.{May};
ghost use Rattle.lr_check_found.specs.declared.places.Place.{Place};
ghost use Rattle.lr_check_found.specs.Adding.{list_number};
ghost use Rattle.lr_check_found.specs.Found.{IsPlaceAt};
ghost use Rattle.lr_check_found.specs.Items.{HasTwo};
ghost use Rattle.lr_check_complete.specs.Looks.{automaton, WasFound, Looks};
ghost use Rattle.lr_check_complete.specs.Kids.{FirstSum, FirstsIn};
ghost use Rattle.lr_check_complete.specs.Firsts.{AddsList, AddsLists, FirstKid, FirstAt, SumOf};

use crate::look::Look;
use gg_base::NoMemory;
use lr_check_found::{Found, Item, Origin, Place, may};
use lr_tables::State;
use std::alloc::Global;
use tree_core::{Sort, Tok, tokens};

// Whether some of the sums has the list.
fn has_list(found: &Found, sums: &[usize], list: usize) -> bool
    ensures { IsTrue result → (i : ℕ) × (Contains sums.now i × (list_number found.now i ≡ list)) }
{
    sums.iter().any(|sum| found.list_number(*sum) == list)
}

fn add_list(found: &Found, sum: usize, sums: &mut Vec<usize>) -> Result<(), NoMemory>
    ensures { OnOk result (AddsList found.now sum sums.old.items sums.new.items) }
{
    if has_list(found, sums, found.list_number(sum)) {
        return Ok(());
    }
    sums.push(sum)?;
    Ok(())
}

fn add_lists(found: &Found, more: &[usize], sums: &mut Vec<usize>) -> Result<(), NoMemory>
    ensures { OnOk result (AddsLists found.now more.now sums.old.items sums.new.items) }
{
    for sum in more {
        add_list(found, *sum, sums)?;
    }
    Ok(())
}

impl<'a> Look<'a> {
    // The sums of the kid's place, if its token may begin a tree of the sort; the parent has the number.
    fn add_first(
        &self,
        kid: Place,
        parent: usize,
        wanted: Sort,
        sums: &mut Vec<usize>,
        into: &mut Vec<Item>,
    ) -> Result<(), NoMemory>
        requires { WasFound self.now }
        ensures looks { (x : Place) → (May kid.token wanted → FirstKid (automaton self.now) self.now.found.now parent x kid) →
            OnOk result (Looks self.now into.old.items into.new.items
            (May kid.token wanted → FirstAt self.now.found.now kid sums.new.items)) }
        ensures kept { OnOk result ((i : ℕ) → Contains sums.old.items i → Contains sums.new.items i) }
        ensures only { OnOk result ((i : ℕ) → Contains sums.new.items i →
            Contains sums.old.items i ⊎ (May kid.token wanted × SumOf self.now.found.now kid i)) }
    {
        if !may(kid.token, wanted) {
            return Ok(());
        }
        match self.found.find(&kid) {
            Some(place) => add_lists(self.found, self.found.sums(place), sums),
            None => {
                into.push(Item::Place(kid, Origin::First(parent)))?;
                Ok(())
            }
        }
    }

    /// The sums of the first kid of the place with the number, which begins in the state, one for each list;
    /// the second kid begins with the token behind it.
    pub fn firsts(
        &self,
        alloc: Global,
        parent: usize,
        over: State,
        wanted: Sort,
        behind: Tok,
        into: &mut Vec<Item>,
    ) -> Result<Vec<usize>, NoMemory>
        requires { WasFound self.now }
        ensures looks { (x : Place) (second : Sort) → IsPlaceAt self.now.found.now parent x
            → HasTwo (automaton self.now) x wanted second over → May behind second →
            IfOk result (λ v. Looks self.now into.old.items into.new.items (FirstsIn self.now.found.now over wanted behind v.items)) }
        ensures only { IfOk result (λ v. (i : ℕ) → Contains v.items i → FirstSum self.now.found.now over wanted behind i) }
    {
        let mut sums = Vec::new(alloc);
        for token in tokens() {
            let kid = Place {
                state: over,
                token: *token,
                behind,
            };
            self.add_first(kid, parent, wanted, &mut sums, into)?;
        }
        Ok(sums)
    }
}
