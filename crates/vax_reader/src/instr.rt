// Instructions at the front of some bytes.
ghost use Rattle.std.specs.Prelude.{◌≡◌, ◌≤◌, [], length};
ghost use Rattle.std.specs.Option.{option_copied};
ghost use Rattle.gg_base.specs.Fronts.{run_len};
ghost use Rattle.vax_reader.specs.Lines.{in_word, is_last, comma};
ghost use Rattle.vax_reader.specs.Lines.{operands_front, target_front, behind_mnemonic, instr_front};
ghost use Rattle.vax_reader.specs.Answers.{Gives};

use crate::fronts::{name, strip};
use crate::line_fault::LineFault;
use crate::operand::operand;
use gg_base::Name;
use std::alloc::Global;
use vax_core::{Instr, Op, OperandKind, Operands};

/// The length of the word at the front, which ends before a TAB, a line feed or the end.
pub fn word_len(bytes: &[u8]) -> usize
    ensures len { result ≡ run_len in_word bytes.now }
    ensures within { result ≤ length bytes.now }
{
    bytes
        .iter()
        .position(|b| *b == b'\t' || *b == b'\n')
        .unwrap_or(bytes.len())
}

fn is_last(kinds: &[OperandKind], target: bool) -> bool
    ensures { is_last kinds.now target ≡ result }
{
    match kinds {
        [] => !target,
        [_, ..] => false,
    }
}

// Behind an operand, a comma where more follow.
fn comma(last: bool, bytes: &[u8]) -> Option<&[u8]>
    ensures { comma last bytes.now ≡ option_copied result }
{
    if last {
        Some(bytes)
    } else {
        strip(b",", bytes)
    }
}

fn operands<'a>(
    alloc: Global,
    kinds: &[OperandKind],
    target: bool,
    bytes: &'a [u8],
) -> Result<(Operands, &'a [u8]), LineFault>
    requires { length kinds.now ≤ 3 }
    ensures { Gives result (operands_front [] kinds.now target bytes.now) }
{
    let mut read = Operands::with_room(alloc, kinds.len())?;
    let mut rest = bytes;
    let mut left = kinds;
    while let [_, others @ ..] = left {
        let (o, after) = operand(alloc, rest)?;
        read.push(o)?;
        let Some(behind) = comma(is_last(others, target), after) else {
            return Err(LineFault::NotOfForm);
        };
        rest = behind;
        left = others;
    }
    Ok((read, rest))
}

fn label(alloc: Global, target: bool, bytes: &[u8]) -> Result<(Option<Name>, &[u8]), LineFault>
    ensures { Gives result (target_front target bytes.now) }
{
    if !target {
        return Ok((None, bytes));
    }
    let Some((label, rest)) = name(bytes) else {
        return Err(LineFault::NotOfForm);
    };
    Ok((Some(Name::copy_of(alloc, label)?), rest))
}

// What stands behind a mnemonic.
#[tactic(auto, using(vax_core::proofs::ShapeLaws::few_operands), unfolding(crate::specs::Lines::behind_mnemonic))]
fn behind_mnemonic(alloc: Global, op: Op, bytes: &[u8]) -> Result<(Instr, &[u8]), LineFault>
    ensures { Gives result (behind_mnemonic op bytes.now) }
{
    let shape = op.shape();
    if is_last(shape.operands, shape.target) {
        let instr = Instr {
            op,
            operands: Operands::new(alloc),
            target: None,
        };
        return Ok((instr, bytes));
    }
    let Some(rest) = strip(b"\t", bytes) else {
        return Err(LineFault::NotOfForm);
    };
    let (operands, rest) = operands(alloc, shape.operands, shape.target, rest)?;
    let (target, rest) = label(alloc, shape.target, rest)?;
    let instr = Instr {
        op,
        operands,
        target,
    };
    if !instr.valid() {
        return Err(LineFault::NotOfForm);
    }
    Ok((instr, rest))
}

/// The instruction at the front, without the TAB before it.
#[tactic(auto, unfolding(crate::specs::Lines::instr_front))]
pub fn instr(alloc: Global, bytes: &[u8]) -> Result<(Instr, &[u8]), LineFault>
    ensures { Gives result (instr_front bytes.now) }
{
    let (word, rest) = bytes.split_at(word_len(bytes));
    let Some(op) = Op::from_mnemonic(word) else {
        return Err(LineFault::NotOfForm);
    };
    behind_mnemonic(alloc, op, rest)
}
