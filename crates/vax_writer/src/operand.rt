// Numbers, addresses and operands.
ghost use Rattle.std.specs.Prelude.{◌≡◌, ◌++◌, OnOk};
ghost use Rattle.vax_core.specs.Registers.{reg_text};
ghost use Rattle.vax_core.specs.Text.{offset_text, addr_text, at_text, base_text, index_text, operand_text, operands_text};

use gg_base::{Name, put_signed};
use std::alloc::AllocError;
use vax_core::{Addr, Base, Operand, Reg};

/// The least number whose sign bit is set.
const SIGN: u32 = 0x8000_0000;

fn put_offset(into: &mut Vec<u8>, n: u32) -> Result<(), AllocError>
    ensures { OnOk result (into.new.items ≡ into.old.items ++ offset_text n) }
{
    if n == 0 {
        return Ok(());
    }
    if n < SIGN {
        into.push(b'+')?;
    }
    put_signed(into, n)
}

/// Appends a name with its offset, or a number.
pub fn put_addr(into: &mut Vec<u8>, a: &Addr) -> Result<(), AllocError>
    ensures { OnOk result (into.new.items ≡ into.old.items ++ addr_text a.now) }
{
    match &a.name {
        None => put_signed(into, a.offset),
        Some(name) => {
            into.extend_from_slice(name.as_slice())?;
            put_offset(into, a.offset)
        }
    }
}

fn put_reg(into: &mut Vec<u8>, r: Reg) -> Result<(), AllocError>
    ensures { OnOk result (into.new.items ≡ into.old.items ++ reg_text r) }
{
    into.extend_from_slice(r.name().as_bytes())?;
    Ok(())
}

fn put_at(into: &mut Vec<u8>, r: Reg) -> Result<(), AllocError>
    ensures { OnOk result (into.new.items ≡ into.old.items ++ at_text r) }
{
    into.push(b'(')?;
    put_reg(into, r)?;
    into.push(b')')?;
    Ok(())
}

fn put_base(into: &mut Vec<u8>, b: &Base) -> Result<(), AllocError>
    ensures { OnOk result (into.new.items ≡ into.old.items ++ base_text b.now) }
{
    match b {
        Base::Imm(a) => {
            into.push(b'$')?;
            put_addr(into, a)?;
        }
        Base::Reg(r) => put_reg(into, *r)?,
        Base::Def(r) => put_at(into, *r)?,
        Base::Inc(r) => {
            put_at(into, *r)?;
            into.push(b'+')?;
        }
        Base::IncDef(r) => {
            into.push(b'*')?;
            put_at(into, *r)?;
            into.push(b'+')?;
        }
        Base::Dec(r) => {
            into.push(b'-')?;
            put_at(into, *r)?;
        }
        Base::Disp(a, r) => {
            put_addr(into, a)?;
            put_at(into, *r)?;
        }
        Base::DispDef(a, r) => {
            into.push(b'*')?;
            put_addr(into, a)?;
            put_at(into, *r)?;
        }
        Base::Abs(n) => {
            into.extend_from_slice(b"*$")?;
            put_signed(into, *n)?;
        }
        Base::Rel(a) => put_addr(into, a)?,
        Base::RelDef(a) => {
            into.push(b'*')?;
            put_addr(into, a)?;
        }
    }
    Ok(())
}

fn put_index(into: &mut Vec<u8>, index: Option<Reg>) -> Result<(), AllocError>
    ensures { OnOk result (into.new.items ≡ into.old.items ++ index_text index) }
{
    if let Some(x) = index {
        into.push(b'[')?;
        put_reg(into, x)?;
        into.push(b']')?;
    }
    Ok(())
}

fn put_operand(into: &mut Vec<u8>, o: &Operand) -> Result<(), AllocError>
    ensures { OnOk result (into.new.items ≡ into.old.items ++ operand_text o.now) }
{
    put_base(into, &o.base)?;
    put_index(into, o.index)
}

/// Appends operands and a label, joined by commas.
pub fn put_operands(
    into: &mut Vec<u8>,
    operands: &[Operand],
    target: &Option<Name>,
) -> Result<(), AllocError>
    ensures { OnOk result (into.new.items ≡ into.old.items ++ operands_text operands.now target.now) }
{
    let mut rest = operands;
    while let [o, others @ ..] = rest {
        put_operand(into, o)?;
        if !others.is_empty() || target.is_some() {
            into.push(b',')?;
        }
        rest = others;
    }
    if let Some(label) = target {
        into.extend_from_slice(label.as_slice())?;
    }
    Ok(())
}
