// The places of labels.
ghost use Rattle.std.specs.Prelude.{◌≡◌, IfOk, OnOk};
ghost use Rattle.vax_machine.specs.Tables.{with_name, place_in};

use gg_base::NoMemory;
use indexmap::IndexMap;
use std::alloc::Global;
use vax_core::CodeItem;

/// For each label of a code its place; where it stands twice, the first.
#[derive(Drop)]
pub struct Labels<'a> {
    places: IndexMap<&'a [u8], usize>,
}

impl<'a> Labels<'a> {
    ghost use Rattle.vax_pairs_masks.specs.Found.{found};

    fn put(&mut self, name: &'a [u8], place: usize) -> Result<(), NoMemory>
        ensures { OnOk result (found self.new ≡ with_name (found self.old) name.now place) }
    {
        self.places.insert(name, place)?;
        Ok(())
    }

    /// The labels of these items.
    pub fn of(alloc: Global, items: &'a [CodeItem]) -> Result<Self, NoMemory>
        ensures { IfOk result (λ l. found l ≡ place_in items.now 0) }
    {
        let mut labels = Labels {
            places: IndexMap::new(alloc),
        };
        for place in (0..items.len()).rev() {
            if let CodeItem::Label(name) = &items[place] {
                labels.put(name.as_slice(), place)?;
            }
        }
        Ok(labels)
    }

    /// The place of a label.
    pub fn place(&self, name: &[u8]) -> Option<usize>
        ensures { result ≡ found self.now name.now }
    {
        self.places.get(name).copied()
    }
}
