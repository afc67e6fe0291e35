// Operands at the front of what is left of a text section.
ghost use Rattle.std.specs.Prelude.{◌≡◌};
ghost use Rattle.vax_image_reading.specs.Operands.{disp_front, mode_front, immediate_front, absolute_front, relative_front, register_front};
ghost use Rattle.vax_image_reading.specs.Operands.{base_behind, unindexed, operand_front};
ghost use Rattle.vax_image_reading.specs.Views.{view, Gives};
ghost use Rattle.vax_core.specs.declared.operand.Base.TheVariants as bases;

use crate::cursor::Cursor;
use crate::fault::DecodeFault;
use crate::fields::{held_addr, read_field, read_held, signed};
use gg_base::Size;
use std::alloc::Global;
use vax_core::{Addr, Base, Operand, Reg};

// A displacement in a field of this size.
fn near(
    alloc: Global,
    size: Size,
    r: Reg,
    cursor: Cursor<'_>,
) -> Result<(Base, Cursor<'_>), DecodeFault>
    ensures { Gives result (disp_front bases.Disp size r (view cursor.entry)) }
{
    let Some(found) = read_held(cursor, size) else {
        return Err(DecodeFault::NotImage);
    };
    let addr = held_addr(alloc, found.addr, signed(size, found.number))?;
    Ok((Base::Disp(addr, r), found.rest))
}

// The same, deferred.
fn far(
    alloc: Global,
    size: Size,
    r: Reg,
    cursor: Cursor<'_>,
) -> Result<(Base, Cursor<'_>), DecodeFault>
    ensures { Gives result (disp_front bases.DispDef size r (view cursor.entry)) }
{
    let Some(found) = read_held(cursor, size) else {
        return Err(DecodeFault::NotImage);
    };
    let addr = held_addr(alloc, found.addr, signed(size, found.number))?;
    Ok((Base::DispDef(addr, r), found.rest))
}

// What stands behind the first byte of a specifier, by its mode.
#[tactic(auto, unfolding(crate::specs::Operands::mode_front))]
fn by_mode(
    alloc: Global,
    mode: u32,
    r: Reg,
    cursor: Cursor<'_>,
) -> Result<(Base, Cursor<'_>), DecodeFault>
    ensures { Gives result (mode_front mode r (view cursor.entry)) }
{
    match mode {
        0x5 => Ok((Base::Reg(r), cursor)),
        0x6 => Ok((Base::Def(r), cursor)),
        0x7 => Ok((Base::Dec(r), cursor)),
        0x8 => Ok((Base::Inc(r), cursor)),
        0x9 => Ok((Base::IncDef(r), cursor)),
        0xa => near(alloc, Size::Byte, r, cursor),
        0xb => far(alloc, Size::Byte, r, cursor),
        0xc => near(alloc, Size::Word, r, cursor),
        0xd => far(alloc, Size::Word, r, cursor),
        0xe => near(alloc, Size::Long, r, cursor),
        0xf => far(alloc, Size::Long, r, cursor),
        _ => Err(DecodeFault::NotImage),
    }
}

// An immediate in a field.
fn immediate(
    alloc: Global,
    size: Size,
    cursor: Cursor<'_>,
) -> Result<(Base, Cursor<'_>), DecodeFault>
    ensures { Gives result (immediate_front size (view cursor.entry)) }
{
    let Some(found) = read_held(cursor, size) else {
        return Err(DecodeFault::NotImage);
    };
    let addr = held_addr(alloc, found.addr, found.number)?;
    Ok((Base::Imm(addr), found.rest))
}

// The label's memory, or that at the address that stands there.
fn relative(
    alloc: Global,
    deferred: bool,
    cursor: Cursor<'_>,
) -> Result<(Base, Cursor<'_>), DecodeFault>
    ensures { Gives result (relative_front deferred (view cursor.entry)) }
{
    let Some(found) = read_held(cursor, Size::Long) else {
        return Err(DecodeFault::NotImage);
    };
    if found.addr.is_none() {
        return Err(DecodeFault::NotImage);
    }
    let addr = held_addr(alloc, found.addr, 0)?;
    let base = if deferred {
        Base::RelDef(addr)
    } else {
        Base::Rel(addr)
    };
    Ok((base, found.rest))
}

fn register(alloc: Global, b: u32, cursor: Cursor<'_>) -> Result<(Base, Cursor<'_>), DecodeFault>
    ensures { Gives result (register_front b (view cursor.entry)) }
{
    let Some(r) = Reg::from_number((b % 16) as usize) else {
        return Err(DecodeFault::NotImage);
    };
    by_mode(alloc, b / 16, r, cursor)
}

// What stands behind the first byte of a specifier.
#[tactic(auto, unfolding(crate::specs::Operands::base_behind))]
fn base(
    alloc: Global,
    size: Size,
    b: u32,
    cursor: Cursor<'_>,
) -> Result<(Base, Cursor<'_>), DecodeFault>
    ensures { Gives result (base_behind size b (view cursor.entry)) }
{
    if b < 64 {
        return Ok((
            Base::Imm(Addr {
                name: None,
                offset: b,
            }),
            cursor,
        ));
    }
    match b {
        0x8f => immediate(alloc, size, cursor),
        0x9f => absolute(cursor),
        0xef => relative(alloc, false, cursor),
        0xff => relative(alloc, true, cursor),
        _ => register(alloc, b, cursor),
    }
}

fn absolute(cursor: Cursor<'_>) -> Result<(Base, Cursor<'_>), DecodeFault>
    ensures { Gives result (absolute_front (view cursor.entry)) }
{
    let Some((n, rest)) = read_field(cursor, Size::Long) else {
        return Err(DecodeFault::NotImage);
    };
    Ok((Base::Abs(n), rest))
}

fn unindexed<'a>(
    alloc: Global,
    size: Size,
    index: Option<Reg>,
    b: u32,
    cursor: Cursor<'a>,
) -> Result<(Operand, Cursor<'a>), DecodeFault>
    ensures { Gives result (unindexed size index (b, view cursor.entry)) }
{
    let (base, rest) = base(alloc, size, b, cursor)?;
    Ok((Operand { base, index }, rest))
}

/// The operand at the front, however long its fields are.
#[tactic(auto, unfolding(crate::specs::Operands::operand_front))]
pub fn read_operand(
    alloc: Global,
    size: Size,
    cursor: Cursor<'_>,
) -> Result<(Operand, Cursor<'_>), DecodeFault>
    ensures { Gives result (operand_front size (view cursor.entry)) }
{
    let Some((b, rest)) = read_field(cursor, Size::Byte) else {
        return Err(DecodeFault::NotImage);
    };
    if b / 16 != 4 {
        return unindexed(alloc, size, None, b, rest);
    }
    let Some(x) = Reg::from_number((b % 16) as usize) else {
        return Err(DecodeFault::NotImage);
    };
    let Some((b, rest)) = read_field(rest, Size::Byte) else {
        return Err(DecodeFault::NotImage);
    };
    unindexed(alloc, size, Some(x), b, rest)
}
