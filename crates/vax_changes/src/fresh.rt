// New labels.

use gg_base::{Name, NoMemory};
use std::alloc::Global;
use vax_pairs_masks::labels::Labels;

/// Names of labels that a code doesn't have.
#[derive(Drop)]
pub struct Fresh {
    alloc: Global,
    next: u32,
}

impl Fresh {
    /// No name was given so far.
    pub fn new(alloc: Global) -> Self {
        Fresh { alloc, next: 0 }
    }

    // `L` and a number.
    fn label(&self, number: u32) -> Result<Name, NoMemory> {
        let name = format!(in self.alloc; "L{number}")?;
        Ok(Name::from_vec(name.into_bytes()))
    }

    /// The next of `L0`, `L1` and so on that isn't among these labels.
    pub fn name(&mut self, labels: &Labels) -> Result<Name, NoMemory> {
        for number in self.next..u32::MAX {
            let name = self.label(number)?;
            if labels.place(name.as_slice()).is_none() {
                self.next = number.saturating_add(1);
                return Ok(name);
            }
        }
        Err(NoMemory)
    }
}
