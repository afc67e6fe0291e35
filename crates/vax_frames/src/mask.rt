// The entry mask of a body.
ghost use Rattle.std.specs.Prelude.{◌≡◌, ◌<◌, ◌^◌};
ghost use Rattle.vax_core.specs.Registers.{IsSetOf};
ghost use Rattle.vax_frames.specs.Frames.{item_names, body_names, IsMaskOf};

use bitflags::Flags;
use vax_core::CodeItem;

/// The registers that a function keeps for its caller: r2 to r11.
const KEPT: u16 = 0x0ffc;

// The registers among r0 to r11 that an item names.
fn item_registers(item: &CodeItem) -> u16
    ensures { IsSetOf result (item_names item.now) }
{
    match item {
        CodeItem::Instr(i) => i.registers().bits(),
        CodeItem::Label(_) | CodeItem::Globl(_) | CodeItem::Mask(_) => 0,
    }
}

fn body_registers(body: &[CodeItem]) -> u16
    ensures { IsSetOf result (body_names body.now) }
{
    body.iter()
        .fold(0, |named, item| named | item_registers(item))
}

/// The mask that saves exactly the registers among r2 to r11 that the body names.
#[tactic(auto, using(crate::proofs::MaskLaws::kept_named, crate::proofs::MaskLaws::kept_small))]
pub fn entry_mask(body: &[CodeItem]) -> u16
    ensures is { IsMaskOf result body.now }
    ensures small { result < 2 ^ 12 }
{
    body_registers(body) & KEPT
}
