// Reading a whole text.
ghost use Rattle.std.specs.Prelude.{◌≡◌, ◌+◌, ◌≤◌, [], length, IfOk, IfErr};
ghost use Rattle.l32_reader.specs.Grammar.{Reads, IsOnly, CodeLines, IsFault, Refused, IsOnlyFault, Inverts};

use crate::area::area_line;
use crate::fronts::strip;
use crate::item::item_line;
use crate::kind::{area_kind, code_kind, start_kind};
use crate::line_fault::LineFault;
use l32_core::{Code32, Items32};
use std::alloc::Global;
use vax_core::{AreaItem, AreaItems};
use vax_reader::{AsmFault, AsmKind};

/// What is wrong with a line: as in a VAX text, whose code has other mnemonics.
pub type Asm32Kind = AsmKind;

/// Why a text is no code's.
pub type Asm32Fault = AsmFault;

// The data area, the number of the line behind `.text`, and what is left from there on.
#[derive(Drop)]
struct AreaPart<'a> {
    items: Vec<AreaItem>,
    line: u64,
    rest: &'a [u8],
}

fn area_part(alloc: Global, bytes: &[u8]) -> Result<AreaPart<'_>, Asm32Fault>
    ensures read { IfOk result (λ p. CodeLines bytes.now p.items.items [] p.line p.rest.now) }
    ensures count { IfOk result (λ p. p.line + length p.rest.now ≤ length bytes.now) }
    ensures first { IfErr result (IsFault bytes.now) }
{
    let Some(mut rest) = strip(b"\t.data\n", bytes) else {
        return Err(Asm32Fault::Line {
            line: 1,
            kind: start_kind(bytes),
        });
    };
    let mut items = Vec::new(alloc);
    let mut line: u64 = 2;
    'lines: loop {
        if let Some(after) = strip(b"\t.text\n", rest) {
            return Ok(AreaPart {
                items,
                line: line + 1,
                rest: after,
            });
        }
        match area_line(alloc, rest) {
            Ok((item, after)) => {
                items.push(item)?;
                line += 1;
                rest = after;
            }
            Err(LineFault::NoMemory) => return Err(Asm32Fault::NoMemory),
            Err(LineFault::NotOfForm) => {
                return Err(Asm32Fault::Line {
                    line,
                    kind: area_kind(rest),
                });
            }
        }
    }
}

fn read(alloc: Global, bytes: &[u8]) -> Result<Code32, Asm32Fault>
    ensures found { IfOk result (Reads bytes.now) }
    ensures first { IfErr result (IsFault bytes.now) }
{
    let AreaPart {
        items: area,
        mut line,
        mut rest,
    } = area_part(alloc, bytes)?;
    let mut items = Vec::new(alloc);
    while !rest.is_empty() {
        match item_line(alloc, rest) {
            Ok((item, after)) => {
                items.push(item)?;
                line += 1;
                rest = after;
            }
            Err(LineFault::NoMemory) => return Err(Asm32Fault::NoMemory),
            Err(LineFault::NotOfForm) => {
                return Err(Asm32Fault::Line {
                    line,
                    kind: code_kind(rest),
                });
            }
        }
    }
    Ok(Code32 {
        area: AreaItems::from_vec(area),
        items: Items32::from_vec(items),
    })
}

/// The code whose assembly text the bytes are, or the first line that is not of the grammar.
pub fn read32(alloc: Global, bytes: &[u8]) -> Result<Code32, Asm32Fault>
    // What is read is a valid code, and has this text.
    ensures found { IfOk result (Reads bytes.now) }
    // No other valid code has it.
    ensures only { IfOk result (IsOnly bytes.now) }
    // Where nothing is read, no valid code has it, unless memory ran out.
    ensures refused { IfErr result (Refused bytes.now) }
    // The line that is named is the first that is not of the grammar, and its kind is the table's.
    ensures first { IfErr result (IsFault bytes.now) }
    // No other line is the first, and it has no other kind.
    ensures alone { IfErr result (IsOnlyFault bytes.now) }
    // Of the text of a valid code that code is read, unless memory ran out.
    ensures inverse { Inverts bytes.now result }
{
    read(alloc, bytes)
}
