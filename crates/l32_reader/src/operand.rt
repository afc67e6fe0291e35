// Registers and operands at the front of some bytes.
ghost use Rattle.std.specs.Prelude.{◌≡◌};
ghost use Rattle.std.specs.Option.{option_map};
ghost use Rattle.l32_reader.specs.Operands.{reg_front, base_front, at_front, deferred_front, memory_front, operand_front};
ghost use Rattle.l32_reader.specs.Answers.{Gives};

use crate::address::{Spelled, addr, owned};
use crate::fronts::{signed, strip, up_to};
use crate::line_fault::LineFault;
use l32_core::{Base32, Operand32};
use std::alloc::Global;

// The number of a general register, behind its letter.
fn reg(bytes: &[u8]) -> Option<(u8, &[u8])>
    ensures { reg_front bytes.now ≡ option_map (λ x. (x.0, x.1.now)) result }
{
    let (n, rest) = up_to(11, bytes)?;
    Some((n as u8, rest))
}

// The register that a displacement counts from.
#[tactic(auto, unfolding(crate::specs::Operands::base_front))]
fn base(bytes: &[u8]) -> Option<(Base32, &[u8])>
    ensures { base_front bytes.now ≡ option_map (λ x. (x.0, x.1.now)) result }
{
    if let Some(rest) = strip(b"a", bytes) {
        let (n, rest) = reg(rest)?;
        return Some((Base32::A(n), rest));
    }
    if let Some(rest) = strip(b"fp", bytes) {
        return Some((Base32::Fp, rest));
    }
    let rest = strip(b"sp", bytes)?;
    Some((Base32::Sp, rest))
}

// A register in parentheses.
#[tactic(auto, unfolding(crate::specs::Operands::at_front))]
fn at(bytes: &[u8]) -> Option<(Base32, &[u8])>
    ensures { at_front bytes.now ≡ option_map (λ x. (x.0, x.1.now)) result }
{
    let rest = strip(b"(", bytes)?;
    let (r, rest) = base(rest)?;
    let rest = strip(b")", rest)?;
    Some((r, rest))
}

// What stands behind `@`: a displacement and its register.
#[tactic(auto, unfolding(crate::specs::Operands::deferred_front))]
fn deferred(bytes: &[u8]) -> Option<(Operand32, &[u8])>
    ensures { deferred_front bytes.now ≡ option_map (λ x. (x.0, x.1.now)) result }
{
    let (n, rest) = signed(bytes)?;
    let (r, rest) = at(rest)?;
    Some((Operand32::Deferred(n, r), rest))
}

// A displacement and its register, or a label.
#[tactic(auto, unfolding(crate::specs::Operands::memory_front))]
fn memory(alloc: Global, bytes: &[u8]) -> Result<(Operand32, &[u8]), LineFault>
    ensures { Gives result (memory_front bytes.now) }
{
    let Some((a, rest)) = addr(bytes) else {
        return Err(LineFault::NotOfForm);
    };
    match a {
        Spelled::Label(_, _) => Ok((Operand32::Addr(owned(alloc, a)?), rest)),
        Spelled::Number(n) => match at(rest) {
            Some((r, rest)) => Ok((Operand32::At(n, r), rest)),
            None => Err(LineFault::NotOfForm),
        },
    }
}

/// The operand at the front, whatever an instruction asks of it.
#[tactic(auto, unfolding(crate::specs::Operands::operand_front))]
pub fn operand(alloc: Global, bytes: &[u8]) -> Result<(Operand32, &[u8]), LineFault>
    ensures { Gives result (operand_front bytes.now) }
{
    if let Some(rest) = strip(b"$", bytes) {
        let Some((n, rest)) = signed(rest) else {
            return Err(LineFault::NotOfForm);
        };
        return Ok((Operand32::Num(n), rest));
    }
    if let Some(rest) = strip(b"a", bytes) {
        let Some((n, rest)) = reg(rest) else {
            return Err(LineFault::NotOfForm);
        };
        return Ok((Operand32::Reg(n), rest));
    }
    if let Some(rest) = strip(b"@", bytes) {
        let Some((o, rest)) = deferred(rest) else {
            return Err(LineFault::NotOfForm);
        };
        return Ok((o, rest));
    }
    memory(alloc, bytes)
}
