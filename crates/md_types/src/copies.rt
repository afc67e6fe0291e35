// The copies of a rule's lines, one for each size.
ghost use Rattle.std.specs.Prelude.{◌≡◌, ◌++◌, map, OnOk, IfOk};
ghost use Rattle.std.specs.List.{flat_map};
ghost use Rattle.md_types.specs.Copies.{letter, capital, constant, byte_for, line_for, copies};

use crate::types::ExpandedLine;
use gg_base::{Bytes, NoMemory, Size};
use std::alloc::Global;

fn letter(size: Size) -> &'static str
    ensures { result.now ≡ letter size }
{
    match size {
        Size::Byte => "b",
        Size::Word => "w",
        Size::Long => "l",
    }
}

fn capital(size: Size) -> &'static str
    ensures { result.now ≡ capital size }
{
    match size {
        Size::Byte => "B",
        Size::Word => "W",
        Size::Long => "L",
    }
}

/// The token of the constant that is the size's number of bytes.
fn constant(size: Size) -> &'static str
    ensures { result.now ≡ constant size }
{
    match size {
        Size::Byte => "One",
        Size::Word => "Two",
        Size::Long => "Four",
    }
}

fn push_byte(bytes: &mut Vec<u8>, size: Size, byte: u8) -> Result<(), NoMemory>
    ensures { OnOk result (bytes.new.items ≡ bytes.old.items ++ byte_for size byte) }
{
    match byte {
        b'@' => bytes.extend_from_slice(letter(size).as_bytes())?,
        b'^' => bytes.extend_from_slice(capital(size).as_bytes())?,
        b'~' => bytes.extend_from_slice(constant(size).as_bytes())?,
        _ => bytes.push(byte)?,
    }
    Ok(())
}

fn bytes_for(alloc: Global, size: Size, line: &[u8]) -> Result<Vec<u8>, NoMemory>
    ensures { IfOk result (λ bytes. bytes.items ≡ flat_map (byte_for size) line.now) }
{
    let mut bytes = Vec::new(alloc);
    for byte in line {
        push_byte(&mut bytes, size, *byte)?;
    }
    Ok(bytes)
}

fn line_for(alloc: Global, size: Size, line: &ExpandedLine) -> Result<ExpandedLine, NoMemory>
    ensures { IfOk result (λ copy. copy ≡ line_for size line.now) }
{
    let bytes = bytes_for(alloc, size, line.bytes.as_slice())?;
    Ok(ExpandedLine {
        bytes: Bytes::from_vec(bytes),
        from: line.from,
    })
}

fn push_copy(
    alloc: Global,
    lines: &mut Vec<ExpandedLine>,
    size: Size,
    rule: &[ExpandedLine],
) -> Result<(), NoMemory>
    ensures { OnOk result (lines.new.items ≡ lines.old.items ++ map (line_for size) rule.now) }
{
    for line in rule {
        lines.push(line_for(alloc, size, line)?)?;
    }
    Ok(())
}

/// Appends a rule's lines once for each of the sizes.
pub fn push_copies(
    alloc: Global,
    lines: &mut Vec<ExpandedLine>,
    sizes: &[Size],
    rule: &[ExpandedLine],
) -> Result<(), NoMemory>
    ensures { OnOk result (lines.new.items ≡ lines.old.items ++ copies sizes.now rule.now) }
{
    for size in sizes {
        push_copy(alloc, lines, *size, rule)?;
    }
    Ok(())
}
