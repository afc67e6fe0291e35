// Lines of the code at the front of some bytes.
ghost use Rattle.l32_reader.specs.Lines.{item_front};
ghost use Rattle.l32_reader.specs.Answers.{Gives};

use crate::area::named;
use crate::fronts::strip;
use crate::instr::instr;
use crate::line_fault::LineFault;
use gg_base::Name;
use l32_core::Item32;
use std::alloc::Global;

/// The line of the code at the front.
#[tactic(auto, unfolding(crate::specs::Lines::item_front))]
pub fn item_line(alloc: Global, bytes: &[u8]) -> Result<(Item32, &[u8]), LineFault>
    ensures { Gives result (item_front bytes.now) }
{
    if let Some((label, rest)) = named(b":\n", bytes) {
        return Ok((Item32::Label(Name::copy_of(alloc, label)?), rest));
    }
    let Some(rest) = strip(b"\t", bytes) else {
        return Err(LineFault::NotOfForm);
    };
    let (i, rest) = instr(alloc, rest)?;
    let Some(rest) = strip(b"\n", rest) else {
        return Err(LineFault::NotOfForm);
    };
    Ok((Item32::Instr(i), rest))
}
