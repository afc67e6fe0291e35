// Classes that are calm, held for the states and tokens behind that were asked for.
ghost use Rattle.std.specs.Prelude.{◌≡◌, IsTrue, IfSome, OnOk};
ghost use Rattle.lr_check_sets.specs.Automaton.{Automaton};
ghost use Rattle.lr_check_decided.specs.Calm.{AreCalm};
ghost use Rattle.lr_check_decided.specs.Held.{AreRight, IsHeld, HasMarked};

use crate::calm::first_unmarked;
use gg_base::NoMemory;
use lr_tables::{Choice, State, number};
use md_reader::Rule;
use std::alloc::Global;
use tree_core::Tok;

/// Marks of the classes that are calm in the state with the token behind it.
#[derive(Drop)]
pub(crate) struct CalmAt {
    pub state: State,
    pub behind: Tok,
    pub marks: Vec<bool>,
}

/// What is held, and by state and token where it stands.
#[derive(Drop)]
pub(crate) struct CalmHeld {
    pub held: Vec<CalmAt>,
    pub numbers: Vec<usize>,
}

// Where the number of what is held stands: there are 40 tokens.
fn slot(state: State, behind: Tok) -> usize {
    state.number() as usize * 40 + number(behind)
}

fn put(numbers: &mut Vec<usize>, at: usize, number: usize) -> Result<(), NoMemory> {
    if at < numbers.len() {
        numbers[at] = number;
    } else {
        numbers.resize(at, usize::MAX)?;
        numbers.push(number)?;
    }
    Ok(())
}

impl CalmHeld {
    /// Nothing is held.
    pub fn new(alloc: Global) -> Self
        ensures { (A : Automaton) → AreRight A result }
    {
        CalmHeld {
            held: Vec::new(alloc),
            numbers: Vec::new(alloc),
        }
    }

    fn number(&self, state: State, behind: Tok) -> usize {
        match self.numbers.get(slot(state, behind)) {
            Some(number) => *number,
            None => usize::MAX,
        }
    }

    // What is held of the state and the token.
    fn get(&self, state: State, behind: Tok) -> Option<&CalmAt>
        ensures { IfSome result (λ c. IsHeld self.now state behind c.now) }
    {
        match self.held.get(self.number(state, behind)) {
            Some(calm) => {
                if calm.state.number() != state.number() {
                    return None;
                }
                if number(calm.behind) != number(behind) {
                    return None;
                }
                Some(calm)
            }
            None => None,
        }
    }

    /// Whether the choices make nothing but classes that are held to be calm of a whole list of so many symbols.
    pub fn are_calm(
        &self,
        rules: &[Rule],
        choices: &[Choice],
        size: usize,
        state: State,
        behind: Tok,
    ) -> bool
        ensures { IsTrue result → HasMarked self.now state behind rules.now size choices.now }
    {
        match self.get(state, behind) {
            Some(calm) => first_unmarked(rules, choices, size, &calm.marks).is_none(),
            None => false,
        }
    }

    // The number stands where that of the state and the token is looked for.
    fn note(&mut self, state: State, behind: Tok, number: usize) -> Result<(), NoMemory>
        ensures { OnOk result (self.new.held ≡ self.old.held) }
    {
        put(&mut self.numbers, slot(state, behind), number)
    }

    /// The marks are held from now on.
    pub fn hold(&mut self, state: State, behind: Tok, marks: Vec<bool>) -> Result<(), NoMemory>
        ensures { (A : Automaton) → AreRight A self.old → AreCalm A state behind marks.items → OnOk result (AreRight A self.new) }
    {
        let number = self.held.len();
        self.note(state, behind, number)?;
        self.held.push(CalmAt {
            state,
            behind,
            marks,
        })?;
        Ok(())
    }
}
