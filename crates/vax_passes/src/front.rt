// What comes next in front of some items of a code.
ghost use Rattle.std.specs.Prelude.{◌≡◌, ◌||◌, ◌&&◌, ◌∷◌, ℕ, List, false, not, OnOk};
ghost use Rattle.std.specs.Str.{bytes_eq};
ghost use Rattle.vax_core.specs.declared.code.CodeItem.{CodeItem};

use gg_base::NoMemory;
use indexmap::IndexSet;
use std::alloc::Global;
use vax_core::CodeItem;

/// The front of some items: the labels there, with only labels and `.globl` lines before them, and whether the next other item is a mask.
#[derive(Drop)]
pub struct Front {
    alloc: Global,
    labels: IndexSet<Vec<u8>>,
    is_mask: bool,
}

impl Front {
    ghost use Rattle.vax_passes.specs.Fronts.{has_label, IsFront};

    /// The front of no items.
    pub(crate) fn new(alloc: Global) -> Self
        ensures labels { (name : List ℕ) → has_label result name ≡ false }
        ensures mask { result.is_mask ≡ false }
    {
        Front {
            alloc,
            labels: IndexSet::new(alloc),
            is_mask: false,
        }
    }

    fn add(&mut self, name: &[u8]) -> Result<(), NoMemory>
        ensures labels { OnOk result ((other : List ℕ) → has_label self.new other ≡ (bytes_eq name.now other || has_label self.old other)) }
        ensures mask { self.new.is_mask ≡ self.old.is_mask }
    {
        let name = Vec::from_slice(self.alloc, name)?;
        self.labels.insert(name)?;
        Ok(())
    }

    fn restart(&mut self, is_mask: bool)
        ensures labels { (name : List ℕ) → has_label self.new name ≡ false }
        ensures mask { self.new.is_mask ≡ is_mask }
    {
        self.labels = IndexSet::new(self.alloc);
        self.is_mask = is_mask;
    }

    /// One item more in front.
    pub(crate) fn put(&mut self, item: &CodeItem) -> Result<(), NoMemory>
        ensures { OnOk result ((items : List CodeItem) → IsFront self.old items → IsFront self.new (item.now ∷ items)) }
    {
        match item {
            CodeItem::Label(name) => self.add(name.as_slice()),
            CodeItem::Globl(_) => Ok(()),
            CodeItem::Mask(_) => {
                self.restart(true);
                Ok(())
            }
            CodeItem::Instr(_) => {
                self.restart(false);
                Ok(())
            }
        }
    }

    /// Whether a jump to the label goes where the run comes next anyway.
    pub(crate) fn leads(&self, name: &[u8]) -> bool
        ensures { result ≡ (has_label self.now name.now && not self.now.is_mask) }
    {
        self.labels.contains(name) && !self.is_mask
    }
}
