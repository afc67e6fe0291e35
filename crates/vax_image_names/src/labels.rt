// The labels of a code's items.
ghost use Rattle.std.specs.Prelude.{◌≡◌};
ghost use Rattle.vax_machine.specs.Tables.{place_in};
ghost use Rattle.vax_image_names.specs.Found.{found};

use crate::table::Table;
use vax_core::CodeItem;

/// A code's items, with the number of each label among them.
#[derive(Drop)]
pub struct Labels<'a> {
    pub items: &'a [CodeItem],
    pub numbers: Table<'a>,
    ghost places: { found numbers ≡ place_in items.now 0 },
}

impl<'a> Labels<'a> {
    ghost use Rattle.vax_machine.specs.Labels.{label_place};
    ghost use Rattle.vax_image_names.specs.Stands.{place_of};

    /// The number of the item that is the label of this name: how many items stand before it.
    pub fn find(&self, name: &[u8]) -> Option<usize>
        ensures { result ≡ place_of self.now.items.now name.now }
    {
        self.numbers.get(name)
    }

    /// The number of that item; behind all items where there is none.
    pub fn number(&self, name: &[u8]) -> usize
        ensures { result ≡ label_place self.now.items.now name.now }
    {
        self.numbers.get(name).unwrap_or(self.items.len())
    }
}
