// Tables of names.
ghost use Rattle.std.specs.Prelude.{◌≡◌, OnOk};
ghost use Rattle.vax_machine.specs.Tables.{no_names, with_name};

use indexmap::IndexMap;
use std::alloc::{AllocError, Global};

/// Names, each with a number.
#[derive(Drop)]
pub struct Table<'a> {
    numbers: IndexMap<&'a [u8], usize>,
}

impl<'a> Table<'a> {
    ghost use Rattle.l32_machine.specs.Found.{found};

    /// No names.
    pub(crate) fn new(alloc: Global) -> Self
        ensures { found result ≡ no_names }
    {
        Table {
            numbers: IndexMap::new(alloc),
        }
    }

    /// Gives a name this number, in place of any that it had.
    pub(crate) fn put(&mut self, name: &'a [u8], number: usize) -> Result<(), AllocError>
        ensures { OnOk result (found self.new ≡ with_name (found self.old) name.now number) }
    {
        self.numbers.insert(name, number)?;
        Ok(())
    }

    /// The number of a name.
    pub(crate) fn get(&self, name: &[u8]) -> Option<usize>
        ensures { result ≡ found self.now name.now }
    {
        self.numbers.get(name).copied()
    }
}
