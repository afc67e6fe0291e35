// Labels that nothing names.

use gg_base::NoMemory;
use std::alloc::Global;
use vax_core::{Code, CodeItem, Instr};
use vax_pairs_masks::labels::Labels;
use vax_validated::Change;
use vax_validated::copying::{copy_item, with_area_of};

/// Removal of labels: drops each label `L..` to which no instruction leads, so that what is known in front of it is known behind it.
#[derive(Drop)]
pub struct SpareLabel;

/// For each place of a code whether an instruction names the label there.
#[derive(Drop)]
struct Named {
    marks: Vec<bool>,
}

impl Named {
    fn mark(&mut self, labels: &Labels, instr: &Instr) {
        let Some(name) = &instr.target else {
            return;
        };
        let Some(place) = labels.place(name.as_slice()) else {
            return;
        };
        if let Some(mark) = self.marks.get_mut(place) {
            *mark = true;
        }
    }

    fn of(alloc: Global, items: &[CodeItem]) -> Result<Self, NoMemory> {
        let labels = Labels::of(alloc, items)?;
        let mut marks = Vec::new(alloc);
        for _ in items {
            marks.push(false)?;
        }
        let mut named = Named { marks };
        for item in items {
            if let CodeItem::Instr(instr) = item {
                named.mark(&labels, instr);
            }
        }
        Ok(named)
    }

    fn has(&self, place: usize) -> bool {
        self.marks.get(place).copied().unwrap_or(false)
    }
}

// Whether an item is a label of the compiler's kind.
fn is_inner(item: &CodeItem) -> bool {
    match item {
        CodeItem::Label(name) => name.as_slice().first().copied() == Some(b'L'),
        CodeItem::Globl(_) | CodeItem::Mask(_) | CodeItem::Instr(_) => false,
    }
}

impl Change for SpareLabel {
    fn change(&mut self, alloc: Global, code: &Code) -> Result<Code, NoMemory> {
        let items = code.items.as_slice();
        let named = Named::of(alloc, items)?;
        let mut kept = Vec::new(alloc);
        for (place, item) in items.iter().enumerate() {
            if named.has(place) || !is_inner(item) {
                kept.push(copy_item(alloc, item)?)?;
            }
        }
        with_area_of(alloc, code, kept)
    }
}
