// What follows from the places of a state and a token.
ghost use Rattle.std.specs.Prelude.{◌≡◌, ◌⊎◌, ℕ, [], ◌∷◌, OnOk, IfOk, Contains};
ghost use Rattle.tree_core.specs.declared.token.Tok.{Tok};
ghost use Rattle.tree_core.specs.Grammar.{kids};
ghost use Rattle.md_reader.specs.declared.types.Sym.TheVariants as grammar_symbol;
ghost use Rattle.lr_check_found.specs.declared.places.Place.{Place};
ghost use Rattle.lr_check_found.specs.Found.{place_of, IsPlaceAt, Settles};
ghost use Rattle.lr_check_found.specs.Items.{HasOne};
ghost use Rattle.lr_check_complete.specs.Looks.{automaton, WasFound, IsShownRight, Looks};
ghost use Rattle.lr_check_complete.specs.Kids.{OnlyIn, KidsIn, IsFrame, AtPlaces, FrameIn};

use crate::look::Look;
use gg_base::NoMemory;
use lr_check_found::{How, Item, Place};
use lr_tables::State;
use md_reader::Sym;
use std::alloc::Global;
use tree_core::{Sort, Tok, tokens};

impl<'a> Look<'a> {
    // A token without kids settles at each of the places.
    fn leaves(&self, numbers: &[usize], token: Tok, into: &mut Vec<Item>) -> Result<(), NoMemory>
        requires found { WasFound self.now }
        requires sheet { IsShownRight self.now }
        ensures { (q p : ℕ) → IsFrame (automaton self.now) self.now.found.now q token p numbers.now → kids token ≡ [] →
            OnOk result (Looks self.now into.old.items into.new.items
            ((n : ℕ) → Contains numbers.now n → Settles self.now.found.now n (grammar_symbol.Tok token ∷ []))) }
    {
        if self.are_leaves_shown(numbers, token) {
            return Ok(());
        }
        for number in numbers {
            self.settle(*number, How::Leaf, token, 0, 0, into)?;
        }
        Ok(())
    }

    fn only_of(
        &self,
        number: usize,
        over: State,
        wanted: Sort,
        into: &mut Vec<Item>,
    ) -> Result<(), NoMemory>
        requires { WasFound self.now }
        ensures { ((x : Place) → IsPlaceAt self.now.found.now number x → HasOne (automaton self.now) x wanted over) →
            OnOk result (Looks self.now into.old.items into.new.items
            ((x : Place) → IsPlaceAt self.now.found.now number x → OnlyIn self.now.found.now number x over wanted)) }
    {
        match self.found.places().get(number) {
            Some(place) => self.only(number, *place, over, wanted, into),
            None => Ok(()),
        }
    }

    // The only kid of each of the places.
    fn onlys(
        &self,
        numbers: &[usize],
        over: State,
        wanted: Sort,
        into: &mut Vec<Item>,
    ) -> Result<(), NoMemory>
        requires found { WasFound self.now }
        requires sheet { IsShownRight self.now }
        ensures { (q : ℕ) (k : Tok) → IsFrame (automaton self.now) self.now.found.now q k over numbers.now → kids k ≡ wanted ∷ [] →
            OnOk result (Looks self.now into.old.items into.new.items
            (AtPlaces self.now.found.now numbers.now (λ n x. OnlyIn self.now.found.now n x over wanted))) }
    {
        if self.are_onlys_shown(numbers, over, wanted) {
            return Ok(());
        }
        for number in numbers {
            self.only_of(*number, over, wanted, into)?;
        }
        Ok(())
    }

    // What follows from the kids of the places, which begin in the state.
    fn all_kids(
        &self,
        alloc: Global,
        numbers: &[usize],
        token: Tok,
        over: State,
        into: &mut Vec<Item>,
    ) -> Result<(), NoMemory>
        requires found { WasFound self.now }
        requires sheet { IsShownRight self.now }
        ensures { (q : ℕ) → IsFrame (automaton self.now) self.now.found.now q token over numbers.now →
            OnOk result (Looks self.now into.old.items into.new.items
            (AtPlaces self.now.found.now numbers.now (λ n x. KidsIn (automaton self.now) self.now.found.now n x over (kids token)))) }
    {
        let kids = token.kids();
        if kids.len() == 0 {
            self.leaves(numbers, token, into)
        } else if kids.len() == 1 {
            self.onlys(numbers, over, kids[0], into)
        } else if kids.len() == 2 {
            self.both(alloc, numbers, over, kids[0], kids[1], into)
        } else {
            Ok(())
        }
    }

    // The number of the place comes to the others, if it is found.
    fn add_number(&self, place: Place, numbers: &mut Vec<usize>) -> Result<(), NoMemory>
        requires { WasFound self.now }
        ensures kept { OnOk result ((n : ℕ) → Contains numbers.old.items n → Contains numbers.new.items n) }
        ensures only { OnOk result ((n : ℕ) → Contains numbers.new.items n → Contains numbers.old.items n
            ⊎ IsPlaceAt self.now.found.now n place) }
        ensures there { OnOk result ((n : ℕ) → IsPlaceAt self.now.found.now n place → Contains numbers.new.items n) }
    {
        match self.found.find(&place) {
            Some(number) => {
                numbers.push(number)?;
                Ok(())
            }
            None => Ok(()),
        }
    }

    // The numbers of the places of the state and the token.
    fn places_of(&self, alloc: Global, state: State, token: Tok) -> Result<Vec<usize>, NoMemory>
        requires { WasFound self.now }
        ensures places { IfOk result (λ v. (n : ℕ) → Contains v.items n
            → (b : Tok) × IsPlaceAt self.now.found.now n (place_of state token b)) }
        ensures all { IfOk result (λ v. (n : ℕ) (b : Tok) → IsPlaceAt self.now.found.now n (place_of state token b) → Contains v.items n) }
    {
        let mut numbers = Vec::new(alloc);
        for behind in tokens() {
            let place = Place {
                state,
                token,
                behind: *behind,
            };
            self.add_number(place, &mut numbers)?;
        }
        Ok(numbers)
    }

    /// What follows from the places of the state and the token.
    pub fn frame(
        &self,
        alloc: Global,
        state: State,
        token: Tok,
        into: &mut Vec<Item>,
    ) -> Result<(), NoMemory>
        requires found { WasFound self.now }
        requires sheet { IsShownRight self.now }
        ensures { OnOk result (Looks self.now into.old.items into.new.items
            (FrameIn (automaton self.now) self.now.found.now state token)) }
    {
        let over = match self.tables.over(state, Sym::Tok(token)) {
            Some(over) => over,
            None => return Ok(()),
        };
        let numbers = self.places_of(alloc, state, token)?;
        self.all_kids(alloc, &numbers, token, over, into)
    }
}
