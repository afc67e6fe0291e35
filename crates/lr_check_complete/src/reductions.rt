// What follows from reductions of a settling's whole list.
ghost use Rattle.std.specs.Prelude.{◌≡◌, ℕ, [], ◌∷◌, List, OnOk, IsTrue, Contains, length};
ghost use Rattle.md_reader.specs.declared.types.Sym.TheVariants as grammar_symbol;
ghost use Rattle.lr_tables.specs.declared.types.Choice.{Choice};
ghost use Rattle.lr_check_found.specs.declared.choices.Leads.TheVariants.{Whole};
ghost use Rattle.lr_check_found.specs.declared.settlings.How.TheVariants as how;
ghost use Rattle.lr_check_found.specs.Choices.{seen};
ghost use Rattle.lr_check_found.specs.Found.{IsSettlingAt, Settles};
ghost use Rattle.lr_check_found.specs.Items.{HasMade};
ghost use Rattle.lr_check_complete.specs.Looks.{automaton, WasFound, Looks};
ghost use Rattle.lr_check_complete.specs.Kids.{LeadsIn, ReducesIn};

use crate::look::Look;
use gg_base::NoMemory;
use lr_check_found::{How, Item, Leads, Settling, candidate, free_choices};
use lr_tables::Choice;
use md_reader::{Rule, Sym};

impl<'a> Look<'a> {
    // Whether the class alone settles at the place with the number.
    fn is_reduced(&self, number: usize, class: u16) -> bool
        requires { WasFound self.now }
        ensures { IsTrue result → Settles self.now.found.now number (grammar_symbol.Class class ∷ []) }
    {
        match self.found.lists().find(Sym::Class(class), 0) {
            Some(list) => self.found.settles(number, list),
            None => false,
        }
    }

    // The reduction of the settling's whole list to the class.
    fn reduced(
        &self,
        number: usize,
        settling: usize,
        class: u16,
        into: &mut Vec<Item>,
    ) -> Result<(), NoMemory>
        requires { WasFound self.now }
        ensures { HasMade (automaton self.now) self.now.found.now number (how.Reduced settling class) →
            OnOk result (Looks self.now into.old.items into.new.items
            (Settles self.now.found.now number (grammar_symbol.Class class ∷ []))) }
    {
        if self.is_reduced(number, class) {
            return Ok(());
        }
        into.push(Item::Settling(number, How::Reduced(settling, class)))?;
        Ok(())
    }

    // The reduction of a list of so many symbols that the choice makes, if it makes one of all of it.
    fn by_choice(
        &self,
        rules: &[Rule],
        number: usize,
        settling: usize,
        size: usize,
        choice: Choice,
        into: &mut Vec<Item>,
    ) -> Result<(), NoMemory>
        requires { WasFound self.now }
        ensures { ((k : ℕ) → (seen rules.now size choice).leads ≡ Whole k
            → HasMade (automaton self.now) self.now.found.now number (how.Reduced settling k)) →
            OnOk result (Looks self.now into.old.items into.new.items
            (LeadsIn self.now.found.now number (seen rules.now size choice).leads)) }
    {
        match candidate(rules, choice, size).leads {
            Leads::Whole(class) => self.reduced(number, settling, class, into),
            Leads::Out(_) => Ok(()),
            Leads::Inside => Ok(()),
        }
    }

    fn by_choices(
        &self,
        rules: &[Rule],
        number: usize,
        settling: usize,
        size: usize,
        choices: &[Choice],
        into: &mut Vec<Item>,
    ) -> Result<(), NoMemory>
        requires { WasFound self.now }
        ensures { ((d : Choice) → Contains choices.now d → (k : ℕ) → (seen rules.now size d).leads ≡ Whole k
            → HasMade (automaton self.now) self.now.found.now number (how.Reduced settling k)) →
            OnOk result (Looks self.now into.old.items into.new.items
            ((d : Choice) → Contains choices.now d → LeadsIn self.now.found.now number (seen rules.now size d).leads)) }
    {
        for choice in choices {
            self.by_choice(rules, number, settling, size, *choice, into)?;
        }
        Ok(())
    }

    // The reductions of the settling's whole list.
    fn by_settling(
        &self,
        number: usize,
        settling: &Settling,
        into: &mut Vec<Item>,
    ) -> Result<(), NoMemory>
        requires { WasFound self.now }
        ensures { IsSettlingAt self.now.found.now number settling.now →
            OnOk result (Looks self.now into.old.items into.new.items
            (ReducesIn (automaton self.now) self.now.found.now number)) }
    {
        let state = match settling.behind {
            Some(state) => state,
            None => return Ok(()),
        };
        let place = match self.found.places().get(settling.place) {
            Some(place) => *place,
            None => return Ok(()),
        };
        let rules = self.tables.description().rules();
        let free = free_choices(rules, self.tables.action(state, place.behind));
        let size = self.found.lists().get(settling.list).len();
        self.by_choices(rules, settling.place, number, size, free, into)
    }

    /// What follows from reductions of the whole list of the settling with the number.
    pub fn reductions(&self, number: usize, into: &mut Vec<Item>) -> Result<(), NoMemory>
        requires { WasFound self.now }
        ensures { OnOk result (Looks self.now into.old.items into.new.items
            (ReducesIn (automaton self.now) self.now.found.now number)) }
    {
        match self.found.settlings().get(number) {
            Some(settling) => self.by_settling(number, settling, into),
            None => Ok(()),
        }
    }
}
