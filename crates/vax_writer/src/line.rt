// The lines of the data area and of the code.
ghost use Rattle.std.specs.Prelude.{◌≡◌, ◌++◌, OnOk, codes};
ghost use Rattle.std.specs.Fmt.{decimal};
ghost use Rattle.vax_core.specs.Ops.{shape};
ghost use Rattle.vax_core.specs.Text.{instr_text, area_text, item_text, area_line, item_line};

use crate::operand::{put_addr, put_operands};
use gg_base::{Name, put_decimal};
use std::alloc::AllocError;
use vax_core::{AreaItem, CodeItem, Instr};

fn put_instr(into: &mut Vec<u8>, i: &Instr) -> Result<(), AllocError>
    ensures { OnOk result (into.new.items ≡ into.old.items ++ instr_text i.now) }
{
    into.push(b'\t')?;
    into.extend_from_slice(i.op.shape().mnemonic.as_bytes())?;
    let operands = i.operands.as_slice();
    if operands.is_empty() && i.target.is_none() {
        return Ok(());
    }
    into.push(b'\t')?;
    put_operands(into, operands, &i.target)
}

fn put_named(into: &mut Vec<u8>, directive: &[u8], name: &Name) -> Result<(), AllocError>
    ensures { OnOk result (into.new.items ≡ into.old.items ++ (directive.now ++ name.now)) }
{
    into.extend_from_slice(directive)?;
    into.extend_from_slice(name.as_slice())?;
    Ok(())
}

fn put_counted(into: &mut Vec<u8>, directive: &[u8], n: u32) -> Result<(), AllocError>
    ensures { OnOk result (into.new.items ≡ into.old.items ++ (directive.now ++ decimal n)) }
{
    into.extend_from_slice(directive)?;
    put_decimal(into, u64::from(n))
}

fn put_label(into: &mut Vec<u8>, name: &Name) -> Result<(), AllocError>
    ensures { OnOk result (into.new.items ≡ into.old.items ++ (name.now ++ codes ":")) }
{
    into.extend_from_slice(name.as_slice())?;
    into.push(b':')?;
    Ok(())
}

fn put_area_item(into: &mut Vec<u8>, item: &AreaItem) -> Result<(), AllocError>
    ensures { OnOk result (into.new.items ≡ into.old.items ++ area_text item.now) }
{
    match item {
        AreaItem::Label(name) => put_label(into, name),
        AreaItem::Globl(name) => put_named(into, b"\t.globl\t", name),
        AreaItem::Align(k) => put_counted(into, b"\t.align\t", u32::from(*k)),
        AreaItem::Byte(n) => put_counted(into, b"\t.byte\t", u32::from(*n)),
        AreaItem::Word(n) => put_counted(into, b"\t.word\t", u32::from(*n)),
        AreaItem::Long(a) => {
            into.extend_from_slice(b"\t.long\t")?;
            put_addr(into, a)
        }
        AreaItem::Space(n) => put_counted(into, b"\t.space\t", *n),
    }
}

fn put_code_item(into: &mut Vec<u8>, item: &CodeItem) -> Result<(), AllocError>
    ensures { OnOk result (into.new.items ≡ into.old.items ++ item_text item.now) }
{
    match item {
        CodeItem::Label(name) => put_label(into, name),
        CodeItem::Globl(name) => put_named(into, b"\t.globl\t", name),
        CodeItem::Mask(mask) => put_counted(into, b"\t.word\t", u32::from(*mask)),
        CodeItem::Instr(i) => put_instr(into, i),
    }
}

/// Appends a line of the data area.
pub fn put_area_line(into: &mut Vec<u8>, item: &AreaItem) -> Result<(), AllocError>
    ensures { OnOk result (into.new.items ≡ into.old.items ++ area_line item.now) }
{
    put_area_item(into, item)?;
    into.push(b'\n')?;
    Ok(())
}

/// Appends a line of the code.
pub fn put_code_line(into: &mut Vec<u8>, item: &CodeItem) -> Result<(), AllocError>
    ensures { OnOk result (into.new.items ≡ into.old.items ++ item_line item.now) }
{
    put_code_item(into, item)?;
    into.push(b'\n')?;
    Ok(())
}
