// Operands, and the lines of the code.
ghost use Rattle.std.specs.Prelude.{◌≡◌, [], ◌∷◌, ◌++◌, OnOk};
ghost use Rattle.std.specs.Option.{option_copied};
ghost use Rattle.l32_core.specs.Ops.{shape};
ghost use Rattle.l32_core.specs.Text.{reg_text, base_text, at_text, operand_text, parts_text, instr_text, item_text, item_line};

use crate::area::{put_addr, put_label};
use gg_base::{Name, put_decimal, put_signed};
use l32_core::{Base32, Instr32, Item32, Operand32, Part};
use std::alloc::AllocError;

fn put_reg(into: &mut Vec<u8>, n: u8) -> Result<(), AllocError>
    ensures { OnOk result (into.new.items ≡ into.old.items ++ reg_text n) }
{
    into.push(b'a')?;
    put_decimal(into, u64::from(n))
}

fn put_base(into: &mut Vec<u8>, base: Base32) -> Result<(), AllocError>
    ensures { OnOk result (into.new.items ≡ into.old.items ++ base_text base) }
{
    match base {
        Base32::A(n) => put_reg(into, n)?,
        Base32::Fp => into.extend_from_slice(b"fp")?,
        Base32::Sp => into.extend_from_slice(b"sp")?,
    }
    Ok(())
}

fn put_at(into: &mut Vec<u8>, n: u32, base: Base32) -> Result<(), AllocError>
    ensures { OnOk result (into.new.items ≡ into.old.items ++ at_text n base) }
{
    put_signed(into, n)?;
    into.push(b'(')?;
    put_base(into, base)?;
    into.push(b')')?;
    Ok(())
}

fn put_operand(into: &mut Vec<u8>, o: &Operand32) -> Result<(), AllocError>
    ensures { OnOk result (into.new.items ≡ into.old.items ++ operand_text o.now) }
{
    match o {
        Operand32::Num(n) => {
            into.push(b'$')?;
            put_signed(into, *n)?;
        }
        Operand32::Reg(n) => put_reg(into, *n)?,
        Operand32::At(n, base) => put_at(into, *n, *base)?,
        Operand32::Deferred(n, base) => {
            into.push(b'@')?;
            put_at(into, *n, *base)?;
        }
        Operand32::Addr(a) => put_addr(into, a)?,
    }
    Ok(())
}

// Appends operands and a label in the places that the table gives them, the first behind the mark, the others behind commas.
fn put_parts(
    into: &mut Vec<u8>,
    mark: u8,
    parts: &[Part],
    operands: &[Operand32],
    target: Option<&Name>,
) -> Result<(), AllocError>
    ensures { OnOk result (into.new.items ≡ into.old.items ++ parts_text (mark ∷ []) parts.now operands.now (option_copied target.entry)) }
{
    let [part, parts @ ..] = parts else {
        return Ok(());
    };
    match part {
        Part::Label => {
            let Some(label) = target else {
                return Ok(());
            };
            into.push(mark)?;
            into.extend_from_slice(label.as_slice())?;
            put_parts(into, b',', parts, operands, None)
        }
        Part::Operand(_) => {
            let [o, operands @ ..] = operands else {
                return Ok(());
            };
            into.push(mark)?;
            put_operand(into, o)?;
            put_parts(into, b',', parts, operands, target)
        }
    }
}

fn put_instr(into: &mut Vec<u8>, i: &Instr32) -> Result<(), AllocError>
    ensures { OnOk result (into.new.items ≡ into.old.items ++ instr_text i.now) }
{
    let shape = i.op.shape();
    into.push(b'\t')?;
    into.extend_from_slice(shape.mnemonic.as_bytes())?;
    put_parts(
        into,
        b'\t',
        shape.parts,
        i.operands.as_slice(),
        i.target.as_ref(),
    )
}

fn put_item(into: &mut Vec<u8>, item: &Item32) -> Result<(), AllocError>
    ensures { OnOk result (into.new.items ≡ into.old.items ++ item_text item.now) }
{
    match item {
        Item32::Label(name) => put_label(into, name),
        Item32::Instr(i) => put_instr(into, i),
    }
}

/// Appends a line of the code.
pub fn put_item_line(into: &mut Vec<u8>, item: &Item32) -> Result<(), AllocError>
    ensures { OnOk result (into.new.items ≡ into.old.items ++ item_line item.now) }
{
    put_item(into, item)?;
    into.push(b'\n')?;
    Ok(())
}
