// Whether a code keeps its masks.
ghost use Rattle.std.specs.Prelude.{◌≡◌, ◌<◌, length, None, IsTrue, IfOk};
ghost use Rattle.vax_machine.specs.Labels.{label_place};
ghost use Rattle.vax_machine.specs.Tables.{place_in};
ghost use Rattle.vax_pairs.specs.Functions.{is_branch};
ghost use Rattle.vax_pairs_checked.specs.Masks.{mask_at, InFunction, KeepsMasks};
ghost use Rattle.vax_pairs_masks.specs.Found.{found};
ghost use Rattle.vax_pairs_masks.specs.Keeping.{masks_from, Keeps, Goes, ItemKeeps};

use crate::labels::Labels;
use crate::masks::{covers, has, masks_of};
use bitflags::Flags;
use gg_base::{Name, NoMemory};
use std::alloc::Global;
use vax_core::{CodeItem, Instr};
use vax_machine::function::{Action, action_of};

// A code with its labels, and with the entry mask of each place's function.
#[derive(Drop)]
struct Masked<'a> {
    items: &'a [CodeItem],
    labels: Labels<'a>,
    masks: Vec<Option<u16>>,
    ghost places: { found labels ≡ place_in items.now 0 },
    ghost each: { masks.items ≡ masks_from None items.now },
}

fn is_branch(action: Action) -> bool
    ensures { result ≡ is_branch action }
{
    match action {
        Action::Branch(_) => true,
        Action::Compute(_) | Action::Push | Action::Call | Action::Return => false,
    }
}

impl<'a> Masked<'a> {
    // The mask of a place's function.
    fn mask(&self, place: usize) -> Option<u16>
        requires { place < length self.now.items.now }
        ensures { result ≡ mask_at self.now.items.now place }
    {
        self.masks[place]
    }

    // Whether a label stands in a function with this mask.
    fn is_within(&self, mask: u16, name: &[u8]) -> bool
        ensures { IsTrue result → InFunction self.now.items.now mask (label_place self.now.items.now name.now) }
    {
        let Some(place) = self.labels.place(name) else {
            return false;
        };
        match self.mask(place) {
            Some(found) => found == mask,
            None => false,
        }
    }

    // Whether a branch from a function with this mask stays in such ones.
    fn goes(&self, mask: u16, target: &Option<Name>) -> bool
        ensures { IsTrue result → Goes self.now.items.now mask target.now }
    {
        match target {
            None => true,
            Some(name) => self.is_within(mask, name.as_slice()),
        }
    }

    // Whether an instruction of a function with this mask keeps it.
    fn keeps(&self, mask: u16, instr: &Instr) -> bool
        ensures { IsTrue result → Keeps self.now.items.now mask instr.now }
    {
        covers(mask, instr.registers().bits())
            && (!is_branch(action_of(instr.op)) || self.goes(mask, &instr.target))
    }

    // Whether the item at a place keeps the masks.
    fn item_keeps(&self, place: usize) -> bool
        requires { place < length self.now.items.now }
        ensures { IsTrue result → ItemKeeps self.now.items.now place }
    {
        match &self.items[place] {
            CodeItem::Label(_) | CodeItem::Globl(_) => true,
            CodeItem::Mask(mask) => !has(*mask, 0),
            CodeItem::Instr(instr) => match self.mask(place) {
                None => true,
                Some(mask) => self.keeps(mask, instr),
            },
        }
    }

    fn all_keep(&self) -> bool
        ensures { IsTrue result → KeepsMasks self.now.items.now }
    {
        for place in 0..self.items.len() {
            if !self.item_keeps(place) {
                return false;
            }
        }
        true
    }
}

/// Whether no entry mask of a code has r0, each instruction names only those of r2 to r11 that its function's mask has, and each branch
/// stays in functions with its mask.
pub fn keeps_masks(alloc: Global, items: &[CodeItem]) -> Result<bool, NoMemory>
    ensures { IfOk result (λ b. IsTrue b → KeepsMasks items.now) }
{
    let masked = Masked {
        items,
        labels: Labels::of(alloc, items)?,
        masks: masks_of(alloc, items)?,
    };
    Ok(masked.all_keep())
}
