// What follows from the kid of a token that has one.
ghost use Rattle.std.specs.Prelude.{◌≡◌, ℕ, OnOk, Contains};
ghost use Rattle.lr_check_found.specs.lr_check_sets.specs.Trees.{May};
ghost use Rattle.lr_check_found.specs.declared.places.Place.{Place};
ghost use Rattle.lr_check_found.specs.declared.settlings.How.TheVariants as how;
ghost use Rattle.lr_check_found.specs.Found.{IsPlaceAt};
ghost use Rattle.lr_check_found.specs.Items.{HasMade, HasOne};
ghost use Rattle.lr_check_complete.specs.Looks.{automaton, WasFound, Looks};
ghost use Rattle.lr_check_complete.specs.Kids.{OneKid, OneIn, OnlyAt, OnlyIn};

use crate::look::Look;
use gg_base::NoMemory;
use lr_check_found::{How, Item, Origin, Place, may};
use lr_tables::State;
use tree_core::{Sort, Tok, tokens};

impl<'a> Look<'a> {
    // A sum of the kid, unless both are old.
    fn only_sum(
        &self,
        number: usize,
        token: Tok,
        sum: usize,
        into: &mut Vec<Item>,
    ) -> Result<(), NoMemory>
        requires { WasFound self.now }
        ensures { HasMade (automaton self.now) self.now.found.now number (how.One sum) →
            OnOk result (Looks self.now into.old.items into.new.items (OneIn self.now.found.now number token sum)) }
    {
        if sum < self.window.settlings && number < self.window.places {
            return Ok(());
        }
        let list = self.found.list_number(sum);
        self.settle(number, How::One(sum), token, list, 0, into)
    }

    fn only_sums(
        &self,
        number: usize,
        token: Tok,
        sums: &[usize],
        into: &mut Vec<Item>,
    ) -> Result<(), NoMemory>
        requires { WasFound self.now }
        ensures { ((i : ℕ) → Contains sums.now i → HasMade (automaton self.now) self.now.found.now number (how.One i)) →
            OnOk result (Looks self.now into.old.items into.new.items
            ((i : ℕ) → Contains sums.now i → OneIn self.now.found.now number token i)) }
    {
        for sum in sums {
            self.only_sum(number, token, *sum, into)?;
        }
        Ok(())
    }

    // The kid that begins at its place.
    fn only_at(
        &self,
        number: usize,
        token: Tok,
        kid: Place,
        into: &mut Vec<Item>,
    ) -> Result<(), NoMemory>
        requires { WasFound self.now }
        ensures { (x : Place) → OneKid (automaton self.now) self.now.found.now number x kid →
            OnOk result (Looks self.now into.old.items into.new.items (OnlyAt self.now.found.now number token kid)) }
    {
        match self.found.find(&kid) {
            Some(place) => self.only_sums(number, token, self.found.sums(place), into),
            None => {
                into.push(Item::Place(kid, Origin::First(number)))?;
                Ok(())
            }
        }
    }

    // The same, if the kid's token may begin a tree of the sort.
    fn only_from(
        &self,
        number: usize,
        token: Tok,
        kid: Place,
        wanted: Sort,
        into: &mut Vec<Item>,
    ) -> Result<(), NoMemory>
        requires { WasFound self.now }
        ensures { (x : Place) → (May kid.token wanted → OneKid (automaton self.now) self.now.found.now number x kid) →
            OnOk result (Looks self.now into.old.items into.new.items
            (May kid.token wanted → OnlyAt self.now.found.now number token kid)) }
    {
        if !may(kid.token, wanted) {
            return Ok(());
        }
        self.only_at(number, token, kid, into)
    }

    /// What follows from the only kid of the place with the number, which begins in the state.
    pub fn only(
        &self,
        number: usize,
        place: Place,
        over: State,
        wanted: Sort,
        into: &mut Vec<Item>,
    ) -> Result<(), NoMemory>
        requires { WasFound self.now }
        ensures { IsPlaceAt self.now.found.now number place → HasOne (automaton self.now) place wanted over →
            OnOk result (Looks self.now into.old.items into.new.items (OnlyIn self.now.found.now number place over wanted)) }
    {
        for token in tokens() {
            let kid = Place {
                state: over,
                token: *token,
                behind: place.behind,
            };
            self.only_from(number, place.token, kid, wanted, into)?;
        }
        Ok(())
    }
}
