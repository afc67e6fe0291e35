// The names of one block.
ghost use Rattle.std.specs.Prelude.{◌≡◌, ◌++◌, ◌∷◌, [], OnOk, None};
ghost use Rattle.c_typed_scope.specs.Scopes.{find};

use crate::entry::Entry;
use indexmap::IndexMap;
use std::alloc::{AllocError, Global};
use std::marker::Model;

/// The names of a block with what they stand for, in the order of their declarations.
#[derive(Drop)]
pub struct Block {
    held: IndexMap<Vec<u8>, Entry>,
}

impl Model for Block {
    ghost use Rattle.std.specs.Prelude.{List, ℕ};
    ghost use Rattle.c_typed_scope.specs.declared.entry.Entry.{Entry};
    ghost use Rattle.c_typed_scope.specs.Scopes.{named_entries};

    ghost Value = { List (List ℕ × Entry) };

    ghost view = { λ b. named_entries b.held.entries };
}

impl Block {
    pub fn new(alloc: Global) -> Self
        ensures { result ≡ [] }
    {
        Block {
            held: IndexMap::new(alloc),
        }
    }

    /// What a name stands for.
    pub fn find(&self, name: &[u8]) -> Option<Entry>
        ensures { result ≡ find self.now name.now }
    {
        self.held.get(name).copied()
    }

    /// Declares a name that isn't declared yet.
    pub fn add(&mut self, name: Vec<u8>, entry: Entry) -> Result<(), AllocError>
        requires { find self.old name.items ≡ None }
        ensures { OnOk result (self.new ≡ self.old ++ (name.items, entry) ∷ []) }
    {
        self.held.insert(name, entry)?;
        Ok(())
    }
}
