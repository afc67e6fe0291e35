// Instructions at the front of some bytes.
ghost use Rattle.std.specs.Prelude.{◌≡◌, ◌≤◌, [], ◌∷◌, None, length};
ghost use Rattle.gg_base.specs.Fronts.{run_len};
ghost use Rattle.vax_reader.specs.Lines.{in_word};
ghost use Rattle.l32_reader.specs.Lines.{parts_front, behind_mnemonic, instr_front};
ghost use Rattle.l32_reader.specs.Answers.{Gives};

use crate::fronts::{name, strip};
use crate::line_fault::LineFault;
use crate::operand::operand;
use gg_base::Name;
use l32_core::{Instr32, Op32, Operands32, Part};
use std::alloc::Global;

/// The length of the word at the front, which ends before a TAB, a line feed or the end.
pub fn word_len(bytes: &[u8]) -> usize
    ensures len { result ≡ run_len in_word bytes.now }
    ensures within { result ≤ length bytes.now }
{
    bytes
        .iter()
        .position(|b| *b == b'\t' || *b == b'\n')
        .unwrap_or(bytes.len())
}

// An operand or the label for each part, the first behind a TAB, the others behind commas.
fn parts<'a>(
    alloc: Global,
    parts: &[Part],
    bytes: &'a [u8],
) -> Result<((Operands32, Option<Name>), &'a [u8]), LineFault>
    requires { length parts.now ≤ 3 }
    ensures { Gives result (parts_front (9 ∷ []) parts.now [] None bytes.now) }
{
    let mut operands = Operands32::with_room(alloc, parts.len())?;
    let mut target = None;
    let mut mark = b'\t';
    let mut rest = bytes;
    let mut left = parts;
    while let [part, others @ ..] = left {
        let Some(behind) = strip(&[mark], rest) else {
            return Err(LineFault::NotOfForm);
        };
        match part {
            Part::Label => {
                let Some((label, after)) = name(behind) else {
                    return Err(LineFault::NotOfForm);
                };
                if target.is_some() {
                    return Err(LineFault::NotOfForm);
                }
                target = Some(Name::copy_of(alloc, label)?);
                rest = after;
            }
            Part::Operand(_) => {
                let (o, after) = operand(alloc, behind)?;
                operands.push(o)?;
                rest = after;
            }
        }
        mark = b',';
        left = others;
    }
    Ok(((operands, target), rest))
}

// What stands behind a mnemonic.
#[tactic(auto, using(l32_core::proofs::ShapeLaws::few_parts), unfolding(crate::specs::Lines::behind_mnemonic))]
fn behind_mnemonic(alloc: Global, op: Op32, bytes: &[u8]) -> Result<(Instr32, &[u8]), LineFault>
    ensures { Gives result (behind_mnemonic op bytes.now) }
{
    let ((operands, target), rest) = parts(alloc, op.shape().parts, bytes)?;
    let instr = Instr32 {
        op,
        operands,
        target,
    };
    if !instr.valid() {
        return Err(LineFault::NotOfForm);
    }
    Ok((instr, rest))
}

/// The instruction at the front, without the TAB before it.
#[tactic(auto, unfolding(crate::specs::Lines::instr_front))]
pub fn instr(alloc: Global, bytes: &[u8]) -> Result<(Instr32, &[u8]), LineFault>
    ensures { Gives result (instr_front bytes.now) }
{
    let (word, rest) = bytes.split_at(word_len(bytes));
    let Some(op) = Op32::from_mnemonic(word) else {
        return Err(LineFault::NotOfForm);
    };
    behind_mnemonic(alloc, op, rest)
}
