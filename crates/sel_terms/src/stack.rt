// The subtrees of a pattern that are read.

ghost use Rattle.std.specs.Prelude.{◌≡◌, [], ◌∷◌, OnOk};
ghost use Rattle.sel_terms.specs.Parts.{subtree_of};
ghost use Rattle.sel_terms.specs.Wanted.{first_part};
ghost use Rattle.sel_terms.specs.Reading.{below};

use crate::part::{Part, Subtree};
use gg_base::NoMemory;
use std::alloc::Global;
use term_core::Term;

/// A stack of subtrees.
#[derive(Drop)]
pub struct Stack {
    held: Vec<Subtree>,
}

impl Stack {
    ghost use Rattle.sel_terms.specs.Stack.{contents};

    pub fn new(alloc: Global) -> Self
        ensures { contents result ≡ [] }
    {
        Stack {
            held: Vec::new(alloc),
        }
    }

    pub fn put(&mut self, subtree: Subtree) -> Result<(), NoMemory>
        ensures { OnOk result (contents self.new ≡ subtree_of subtree ∷ contents self.old) }
    {
        self.held.push(subtree)?;
        Ok(())
    }

    /// Takes the top off; of an empty stack it is the constant 0.
    pub fn take(&mut self, alloc: Global) -> Subtree
        ensures taken { subtree_of result ≡ first_part (contents self.old) }
        ensures left { contents self.new ≡ below (contents self.old) }
    {
        match self.held.pop() {
            Some(subtree) => subtree,
            None => Subtree {
                part: Part::Worth(Term::K(0)),
                divisors: Vec::new(alloc),
            },
        }
    }
}
