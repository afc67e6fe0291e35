// The entry masks of a code.
ghost use Rattle.std.specs.Prelude.{◌≡◌, ℕ, ◌≤◌, ◌<◌, false, None, IfOk, IsTrue};
ghost use Rattle.vax_pairs.specs.Functions.{has};
ghost use Rattle.vax_pairs_masks.specs.Keeping.{masks_from, mask_after};

use gg_base::NoMemory;
use std::alloc::Global;
use vax_core::CodeItem;

/// Whether a mask has the register of this number.
pub(crate) fn has(mask: u16, r: u8) -> bool
    requires { r < 12 }
    ensures { result ≡ has mask r }
{
    (mask >> r) % 2 == 1
}

/// Whether a mask has each of r2 to r11 that a set of registers has.
pub(crate) fn covers(mask: u16, named: u16) -> bool
    ensures { IsTrue result → (r : ℕ) → 2 ≤ r → r < 12 → has mask r ≡ false → has named r ≡ false }
{
    for r in 2..12 {
        if has(named, r) && !has(mask, r) {
            return false;
        }
    }
    true
}

// The entry mask behind an item, where it is this one in front of it.
fn mask_after(mask: Option<u16>, item: &CodeItem) -> Option<u16>
    ensures { result ≡ mask_after mask item.now }
{
    match item {
        CodeItem::Mask(mask) => Some(*mask),
        CodeItem::Label(_) | CodeItem::Globl(_) | CodeItem::Instr(_) => mask,
    }
}

/// For each place of these items the entry mask of the function in which it lies.
pub(crate) fn masks_of(alloc: Global, items: &[CodeItem]) -> Result<Vec<Option<u16>>, NoMemory>
    ensures { IfOk result (λ v. v.items ≡ masks_from None items.now) }
{
    let mut masks = Vec::new(alloc);
    let mut mask = None;
    for item in items {
        masks.push(mask)?;
        mask = mask_after(mask, item);
    }
    Ok(masks)
}
