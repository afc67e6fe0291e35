// Instructions at the front of what is left of a text section.
ghost use Rattle.std.specs.Prelude.{◌≡◌, ◌≤◌, [], is_some, length};
ghost use Rattle.vax_image_reading.specs.Fronts.{ref_at};
ghost use Rattle.vax_image_reading.specs.Instrs.{target_front, target_behind, round_front, round_behind, branch_front, operands_front};
ghost use Rattle.vax_image_reading.specs.Instrs.{behind_operands, behind_op, behind_opcode};
ghost use Rattle.vax_image_reading.specs.Instrs.{instr_front};
ghost use Rattle.vax_image_reading.specs.Views.{view, Gives};

use crate::cursor::Cursor;
use crate::fault::DecodeFault;
use crate::fields::{read_field, read_held, ref_at};
use crate::operand::read_operand;
use gg_base::{Name, Size};
use std::alloc::Global;
use vax_core::{Instr, Op, OperandKind, Operands};
use vax_image_format::{is_branch, is_call, op_of, opposite};

// The field of a target.
fn target<'a>(
    alloc: Global,
    size: Size,
    op: Op,
    operands: Operands,
    cursor: Cursor<'a>,
) -> Result<(Instr, Cursor<'a>), DecodeFault>
    ensures { Gives result (target_front size op operands (view cursor.entry)) }
{
    let Some(found) = read_held(cursor, size) else {
        return Err(DecodeFault::NotImage);
    };
    let Some(addr) = found.addr else {
        return Err(DecodeFault::NotImage);
    };
    let Some(label) = &addr.name else {
        return Err(DecodeFault::NotImage);
    };
    let target = Some(Name::copy_of(alloc, label.as_slice())?);
    Ok((
        Instr {
            op,
            operands,
            target,
        },
        found.rest,
    ))
}

// The same behind a field that tells nothing.
fn target_behind<'a>(
    alloc: Global,
    skipped: Size,
    size: Size,
    op: Op,
    operands: Operands,
    cursor: Cursor<'a>,
) -> Result<(Instr, Cursor<'a>), DecodeFault>
    ensures { Gives result (target_behind skipped size op operands (view cursor.entry)) }
{
    let Some((_, rest)) = read_field(cursor, skipped) else {
        return Err(DecodeFault::NotImage);
    };
    target(alloc, size, op, operands, rest)
}

// Behind the branch round a jump: `brw` or `jmp`.
fn round(
    alloc: Global,
    op: Op,
    way: u32,
    cursor: Cursor<'_>,
) -> Result<(Instr, Cursor<'_>), DecodeFault>
    ensures { Gives result (round_front op (way, view cursor.entry)) }
{
    match way {
        0x03 => target_behind(
            alloc,
            Size::Byte,
            Size::Word,
            op,
            Operands::new(alloc),
            cursor,
        ),
        0x06 => target_behind(
            alloc,
            Size::Word,
            Size::Long,
            op,
            Operands::new(alloc),
            cursor,
        ),
        _ => Err(DecodeFault::NotImage),
    }
}

fn round_behind(
    alloc: Global,
    op: Op,
    cursor: Cursor<'_>,
) -> Result<(Instr, Cursor<'_>), DecodeFault>
    ensures { Gives result (round_behind (view cursor.entry) op) }
{
    let Some((way, rest)) = read_field(cursor, Size::Byte) else {
        return Err(DecodeFault::NotImage);
    };
    round(alloc, op, way, rest)
}

// A branch whose field has a ref; or the branch on the opposite condition, round a jump.
fn branch(alloc: Global, op: Op, cursor: Cursor<'_>) -> Result<(Instr, Cursor<'_>), DecodeFault>
    ensures { Gives result (branch_front (view cursor.entry) op) }
{
    if ref_at(cursor.place, cursor.refs).is_some() {
        return target(alloc, Size::Byte, op, Operands::new(alloc), cursor);
    }
    let Some(op) = op_of(u32::from(opposite(op))) else {
        return Err(DecodeFault::NotImage);
    };
    round_behind(alloc, op, cursor)
}

fn operands<'a>(
    alloc: Global,
    kinds: &[OperandKind],
    cursor: Cursor<'a>,
) -> Result<(Operands, Cursor<'a>), DecodeFault>
    requires { length kinds.now ≤ 3 }
    ensures { Gives result (operands_front [] kinds.now (view cursor.entry)) }
{
    let mut read = Operands::with_room(alloc, kinds.len())?;
    let mut rest = cursor;
    let mut left = kinds;
    while let [kind, others @ ..] = left {
        let (o, after) = read_operand(alloc, kind.size, rest)?;
        read.push(o)?;
        rest = after;
        left = others;
    }
    Ok((read, rest))
}

fn behind_operands<'a>(
    alloc: Global,
    op: Op,
    operands: Operands,
    cursor: Cursor<'a>,
) -> Result<(Instr, Cursor<'a>), DecodeFault>
    ensures { Gives result (behind_operands op (operands, view cursor.entry)) }
{
    if is_call(op) {
        return target_behind(alloc, Size::Byte, Size::Long, op, operands, cursor);
    }
    Ok((
        Instr {
            op,
            operands,
            target: None,
        },
        cursor,
    ))
}

#[tactic(auto, using(vax_core::proofs::ShapeLaws::few_operands))]
fn behind_op(alloc: Global, op: Op, cursor: Cursor<'_>) -> Result<(Instr, Cursor<'_>), DecodeFault>
    ensures { Gives result (behind_op (view cursor.entry) op) }
{
    if is_branch(op) {
        return branch(alloc, op, cursor);
    }
    let (operands, rest) = operands(alloc, op.shape().operands, cursor)?;
    behind_operands(alloc, op, operands, rest)
}

fn behind_opcode(
    alloc: Global,
    b: u32,
    cursor: Cursor<'_>,
) -> Result<(Instr, Cursor<'_>), DecodeFault>
    ensures { Gives result (behind_opcode (b, view cursor.entry)) }
{
    if b == 0x31 {
        return target(alloc, Size::Word, Op::Jbr, Operands::new(alloc), cursor);
    }
    if b == 0x17 {
        return target_behind(
            alloc,
            Size::Byte,
            Size::Long,
            Op::Jbr,
            Operands::new(alloc),
            cursor,
        );
    }
    let Some(op) = op_of(b) else {
        return Err(DecodeFault::NotImage);
    };
    behind_op(alloc, op, cursor)
}

/// The instruction at the front, however long its fields are.
#[tactic(auto, unfolding(crate::specs::Instrs::instr_front))]
pub fn read_instr(alloc: Global, cursor: Cursor<'_>) -> Result<(Instr, Cursor<'_>), DecodeFault>
    ensures { Gives result (instr_front (view cursor.entry)) }
{
    let Some((b, rest)) = read_field(cursor, Size::Byte) else {
        return Err(DecodeFault::NotImage);
    };
    behind_opcode(alloc, b, rest)
}
