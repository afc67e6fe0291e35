// The text of a code.
ghost use Rattle.std.specs.Prelude.{◌≡◌, ◌++◌, true, OnOk, OnErr, IfOk, string_bytes};
ghost use Rattle.std.specs.List.{flat_map};
ghost use Rattle.vax_core.specs.Text.{area_line};
ghost use Rattle.l32_core.specs.Text.{item_line, asm_text};
ghost use Rattle.l32_core.specs.Valid.{is_code};

use crate::area::put_area_line;
use crate::item::put_item_line;
use gg_base::NoMemory;
use l32_core::{Code32, Item32};
use std::alloc::{AllocError, Global};
use std::str;
use vax_core::AreaItem;

fn put_area(into: &mut Vec<u8>, items: &[AreaItem]) -> Result<(), AllocError>
    ensures { OnOk result (into.new.items ≡ into.old.items ++ flat_map area_line items.now) }
{
    for item in items {
        put_area_line(into, item)?;
    }
    Ok(())
}

fn put_items(into: &mut Vec<u8>, items: &[Item32]) -> Result<(), AllocError>
    ensures { OnOk result (into.new.items ≡ into.old.items ++ flat_map item_line items.now) }
{
    for item in items {
        put_item_line(into, item)?;
    }
    Ok(())
}

fn text_of(alloc: Global, code: &Code32) -> Result<Vec<u8>, AllocError>
    ensures { IfOk result (λ text. text.items ≡ asm_text code.now) }
{
    let mut text = Vec::new(alloc);
    text.extend_from_slice(b"\t.data\n")?;
    put_area(&mut text, code.area.as_slice())?;
    text.extend_from_slice(b"\t.text\n")?;
    put_items(&mut text, code.items.as_slice())?;
    Ok(text)
}

/// Appends the assembly text of a valid code, byte for byte. Where memory runs out, `into` stays as it was.
pub fn write32(code: &Code32, into: &mut String) -> Result<(), NoMemory>
    requires { is_code code.now ≡ true }
    ensures written { OnOk result (string_bytes into.new ≡ string_bytes into.old ++ asm_text code.now) }
    ensures kept { OnErr result (string_bytes into.new ≡ string_bytes into.old) }
{
    let text = text_of(*into.allocator(), code)?;
    match str::from_utf8(&text) {
        Ok(text) => into.push_str(text)?,
        // A valid code has only ASCII names.
        Err(_) => unreachable!(),
    }
    Ok(())
}
