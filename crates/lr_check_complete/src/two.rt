// What follows from the two kids of a token that has two.
ghost use Rattle.std.specs.Prelude.{◌≡◌, ℕ, [], ◌∷◌, Some, OnOk, IfSome, Contains};
ghost use Rattle.tree_core.specs.declared.token.Tok.{Tok};
ghost use Rattle.tree_core.specs.Grammar.{kids};
ghost use Rattle.lr_check_found.specs.lr_check_sets.specs.Trees.{May};
ghost use Rattle.lr_check_found.specs.declared.places.Place.{Place};
ghost use Rattle.lr_check_found.specs.declared.settlings.How.TheVariants as how;
ghost use Rattle.lr_check_found.specs.declared.settlings.Settling.{Settling};
ghost use Rattle.lr_check_found.specs.Found.{IsPlaceAt, IsSettlingAt};
ghost use Rattle.lr_check_found.specs.Items.{HasMade};
ghost use Rattle.lr_check_complete.specs.Looks.{automaton, WasFound, IsShownRight, Looks};
ghost use Rattle.lr_check_complete.specs.Kids.{TwoKids, TwoIn, SecondAt, FirstIn, BothIn, IsFrame, AtPlaces};
ghost use Rattle.lr_check_complete.specs.Seconds.{SecondKid, SecondFound};

use crate::look::Look;
use gg_base::NoMemory;
use lr_check_found::{Found, How, Item, Origin, Place, may};
use lr_tables::State;
use std::alloc::Global;
use tree_core::{Sort, Tok, tokens};

// The state behind the list of the settling with the number, if it leads to one.
fn behind(found: &Found, number: usize) -> Option<State>
    ensures value { (e : Settling) → IsSettlingAt found.now number e → result ≡ e.behind }
    ensures there { IfSome result (λ p. (e : Settling) × IsSettlingAt found.now number e) }
{
    match found.settlings().get(number) {
        Some(settling) => settling.behind,
        None => None,
    }
}

impl<'a> Look<'a> {
    // A sum of the second kid behind one of the first, unless all are old.
    fn second_sum(
        &self,
        number: usize,
        token: Tok,
        first: usize,
        sum: usize,
        into: &mut Vec<Item>,
    ) -> Result<(), NoMemory>
        requires { WasFound self.now }
        ensures { HasMade (automaton self.now) self.now.found.now number (how.Two first sum) →
            OnOk result (Looks self.now into.old.items into.new.items (TwoIn self.now.found.now number token first sum)) }
    {
        if sum < self.window.settlings
            && first < self.window.settlings
            && number < self.window.places
        {
            return Ok(());
        }
        let upper = self.found.list_number(sum);
        let lower = self.found.list_number(first);
        self.settle(number, How::Two(first, sum), token, upper, lower, into)
    }

    fn second_sums(
        &self,
        number: usize,
        token: Tok,
        first: usize,
        sums: &[usize],
        into: &mut Vec<Item>,
    ) -> Result<(), NoMemory>
        requires { WasFound self.now }
        ensures { ((i : ℕ) → Contains sums.now i → HasMade (automaton self.now) self.now.found.now number (how.Two first i)) →
            OnOk result (Looks self.now into.old.items into.new.items
            ((i : ℕ) → Contains sums.now i → TwoIn self.now.found.now number token first i)) }
    {
        for sum in sums {
            self.second_sum(number, token, first, *sum, into)?;
        }
        Ok(())
    }

    // The second kid that begins at its place.
    fn second_at(
        &self,
        number: usize,
        token: Tok,
        first: usize,
        kid: Place,
        into: &mut Vec<Item>,
    ) -> Result<(), NoMemory>
        requires { WasFound self.now }
        ensures { (x : Place) → SecondKid (automaton self.now) self.now.found.now number x first kid →
            OnOk result (Looks self.now into.old.items into.new.items (SecondFound self.now.found.now number token first kid)) }
    {
        match self.found.find(&kid) {
            Some(place) => { self.second_sums(number, token, first, self.found.sums(place), into) }
            None => {
                into.push(Item::Place(kid, Origin::Second(number, first)))?;
                Ok(())
            }
        }
    }

    // The second kid of the place with the number, which begins with the token in the state behind the sum.
    fn second(
        &self,
        number: usize,
        first: usize,
        behind: State,
        token: Tok,
        into: &mut Vec<Item>,
    ) -> Result<(), NoMemory>
        requires { WasFound self.now }
        ensures { (e : Settling) → IsSettlingAt self.now.found.now first e → e.behind ≡ Some behind →
            ((x : Place) → IsPlaceAt self.now.found.now number x → TwoKids (automaton self.now) self.now.found.now number x token first) →
            OnOk result (Looks self.now into.old.items into.new.items
            ((x : Place) → IsPlaceAt self.now.found.now number x → SecondAt self.now.found.now number x token first)) }
    {
        let place = match self.found.places().get(number) {
            Some(place) => *place,
            None => return Ok(()),
        };
        let kid = Place {
            state: behind,
            token,
            behind: place.behind,
        };
        self.second_at(number, place.token, first, kid, into)
    }

    // The same for each of the places.
    fn seconds_at(
        &self,
        numbers: &[usize],
        first: usize,
        behind: State,
        token: Tok,
        into: &mut Vec<Item>,
    ) -> Result<(), NoMemory>
        requires { WasFound self.now }
        ensures { (e : Settling) → IsSettlingAt self.now.found.now first e → e.behind ≡ Some behind →
            AtPlaces self.now.found.now numbers.now (λ n x. TwoKids (automaton self.now) self.now.found.now n x token first) →
            OnOk result (Looks self.now into.old.items into.new.items
            (AtPlaces self.now.found.now numbers.now (λ n x. SecondAt self.now.found.now n x token first))) }
    {
        for number in numbers {
            self.second(*number, first, behind, token, into)?;
        }
        Ok(())
    }

    // The same behind the sum of the first kid.
    fn seconds(
        &self,
        numbers: &[usize],
        first: usize,
        token: Tok,
        into: &mut Vec<Item>,
    ) -> Result<(), NoMemory>
        requires found { WasFound self.now }
        requires sheet { IsShownRight self.now }
        ensures { AtPlaces self.now.found.now numbers.now (λ n x. TwoKids (automaton self.now) self.now.found.now n x token first) →
            OnOk result (Looks self.now into.old.items into.new.items
            (AtPlaces self.now.found.now numbers.now (λ n x. SecondAt self.now.found.now n x token first))) }
    {
        let state = match behind(self.found, first) {
            Some(state) => state,
            None => return Ok(()),
        };
        if self.are_shown(numbers, first, state, token) {
            return Ok(());
        }
        self.seconds_at(numbers, first, state, token, into)
    }

    // Behind each sum of the first kid.
    fn all_seconds(
        &self,
        numbers: &[usize],
        sums: &[usize],
        token: Tok,
        into: &mut Vec<Item>,
    ) -> Result<(), NoMemory>
        requires found { WasFound self.now }
        requires sheet { IsShownRight self.now }
        ensures { ((i : ℕ) → Contains sums.now i →
            AtPlaces self.now.found.now numbers.now (λ n x. TwoKids (automaton self.now) self.now.found.now n x token i)) →
            OnOk result (Looks self.now into.old.items into.new.items
            ((i : ℕ) → Contains sums.now i →
            AtPlaces self.now.found.now numbers.now (λ n x. SecondAt self.now.found.now n x token i))) }
    {
        for sum in sums {
            self.seconds(numbers, *sum, token, into)?;
        }
        Ok(())
    }

    // Both kids of the places, where the second begins with the token.
    fn pair(
        &self,
        alloc: Global,
        numbers: &[usize],
        over: State,
        wanted: Sort,
        token: Tok,
        into: &mut Vec<Item>,
    ) -> Result<(), NoMemory>
        requires found { WasFound self.now }
        requires sheet { IsShownRight self.now }
        ensures { (q : ℕ) (k : Tok) (second : Sort) → IsFrame (automaton self.now) self.now.found.now q k over numbers.now →
            kids k ≡ wanted ∷ second ∷ [] → May token second →
            OnOk result (Looks self.now into.old.items into.new.items
            (AtPlaces self.now.found.now numbers.now (λ n x. FirstIn (automaton self.now) self.now.found.now n x over wanted token))) }
    {
        if numbers.len() == 0 {
            return Ok(());
        }
        let sums = self.firsts(alloc, numbers[0], over, wanted, token, into)?;
        self.all_seconds(numbers, &sums, token, into)
    }

    // The same, if the second's token may begin a tree of the sort.
    fn pair_from(
        &self,
        alloc: Global,
        numbers: &[usize],
        over: State,
        wanted: Sort,
        second: Sort,
        token: Tok,
        into: &mut Vec<Item>,
    ) -> Result<(), NoMemory>
        requires found { WasFound self.now }
        requires sheet { IsShownRight self.now }
        ensures { (q : ℕ) (k : Tok) → IsFrame (automaton self.now) self.now.found.now q k over numbers.now → kids k
            ≡ wanted ∷ second ∷ [] →
            OnOk result (Looks self.now into.old.items into.new.items
            (May token second →
            AtPlaces self.now.found.now numbers.now (λ n x. FirstIn (automaton self.now) self.now.found.now n x over wanted token))) }
    {
        if !may(token, second) {
            return Ok(());
        }
        self.pair(alloc, numbers, over, wanted, token, into)
    }

    /// What follows from the two kids of the places with the numbers, which begin in the state.
    pub fn both(
        &self,
        alloc: Global,
        numbers: &[usize],
        over: State,
        wanted: Sort,
        second: Sort,
        into: &mut Vec<Item>,
    ) -> Result<(), NoMemory>
        requires found { WasFound self.now }
        requires sheet { IsShownRight self.now }
        ensures { (q : ℕ) (k : Tok) → IsFrame (automaton self.now) self.now.found.now q k over numbers.now → kids k
            ≡ wanted ∷ second ∷ [] →
            OnOk result (Looks self.now into.old.items into.new.items
            (AtPlaces self.now.found.now numbers.now (λ n x. BothIn (automaton self.now) self.now.found.now n x over wanted second))) }
    {
        if self.are_both_shown(alloc, numbers, over, wanted, second)? {
            return Ok(());
        }
        for token in tokens() {
            self.pair_from(alloc, numbers, over, wanted, second, *token, into)?;
        }
        Ok(())
    }
}
