// The lines of the data area, which are those of a VAX text.
ghost use Rattle.std.specs.Prelude.{◌≡◌, ◌++◌, OnOk, codes};
ghost use Rattle.std.specs.Fmt.{decimal};
ghost use Rattle.vax_core.specs.Text.{offset_text, addr_text, area_text, area_line};

use gg_base::{Name, put_decimal, put_signed};
use std::alloc::AllocError;
use vax_core::{Addr, AreaItem};

/// The least number whose sign bit is set.
const SIGN: u32 = 0x8000_0000;

fn put_offset(into: &mut Vec<u8>, n: u32) -> Result<(), AllocError>
    ensures { OnOk result (into.new.items ≡ into.old.items ++ offset_text n) }
{
    if n == 0 {
        return Ok(());
    }
    if n < SIGN {
        into.push(b'+')?;
    }
    put_signed(into, n)
}

/// Appends a name with its offset, or a number.
pub fn put_addr(into: &mut Vec<u8>, a: &Addr) -> Result<(), AllocError>
    ensures { OnOk result (into.new.items ≡ into.old.items ++ addr_text a.now) }
{
    match &a.name {
        None => put_signed(into, a.offset),
        Some(name) => {
            into.extend_from_slice(name.as_slice())?;
            put_offset(into, a.offset)
        }
    }
}

fn put_named(into: &mut Vec<u8>, directive: &[u8], name: &Name) -> Result<(), AllocError>
    ensures { OnOk result (into.new.items ≡ into.old.items ++ (directive.now ++ name.now)) }
{
    into.extend_from_slice(directive)?;
    into.extend_from_slice(name.as_slice())?;
    Ok(())
}

fn put_counted(into: &mut Vec<u8>, directive: &[u8], n: u32) -> Result<(), AllocError>
    ensures { OnOk result (into.new.items ≡ into.old.items ++ (directive.now ++ decimal n)) }
{
    into.extend_from_slice(directive)?;
    put_decimal(into, u64::from(n))
}

/// Appends a label line, without its line feed.
pub fn put_label(into: &mut Vec<u8>, name: &Name) -> Result<(), AllocError>
    ensures { OnOk result (into.new.items ≡ into.old.items ++ (name.now ++ codes ":")) }
{
    into.extend_from_slice(name.as_slice())?;
    into.push(b':')?;
    Ok(())
}

fn put_area_item(into: &mut Vec<u8>, item: &AreaItem) -> Result<(), AllocError>
    ensures { OnOk result (into.new.items ≡ into.old.items ++ area_text item.now) }
{
    match item {
        AreaItem::Label(name) => put_label(into, name),
        AreaItem::Globl(name) => put_named(into, b"\t.globl\t", name),
        AreaItem::Align(k) => put_counted(into, b"\t.align\t", u32::from(*k)),
        AreaItem::Byte(n) => put_counted(into, b"\t.byte\t", u32::from(*n)),
        AreaItem::Word(n) => put_counted(into, b"\t.word\t", u32::from(*n)),
        AreaItem::Long(a) => {
            into.extend_from_slice(b"\t.long\t")?;
            put_addr(into, a)
        }
        AreaItem::Space(n) => put_counted(into, b"\t.space\t", *n),
    }
}

/// Appends a line of the data area.
pub fn put_area_line(into: &mut Vec<u8>, item: &AreaItem) -> Result<(), AllocError>
    ensures { OnOk result (into.new.items ≡ into.old.items ++ area_line item.now) }
{
    put_area_item(into, item)?;
    into.push(b'\n')?;
    Ok(())
}
