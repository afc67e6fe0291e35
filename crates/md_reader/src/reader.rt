// Reading a description.
ghost use Rattle.std.specs.Prelude.{◌≡◌, ◌≤◌, length, IfOk, IfErr};
ghost use Rattle.md_reader.specs.State.{Content};
ghost use Rattle.md_reader.specs.Desc.{DescFor, RefusedFor, Desc, Refused};
ghost use Rattle.md_reader.specs.First.{IsFirstFor, IsFirst};
ghost use Rattle.md_reader_text.specs.Lines.{lines};
ghost use Rattle.md_reader.specs.Fine.{IsFine};
ghost use Rattle.md_reader.specs.View.{state};
ghost use Rattle.md_reader.specs.Reads.{start, ended, closed, read_from, line_behind, read_for, read, Answers};

use crate::description::Description;
use crate::faults::{DescFault, DescKind, LineFault};
use crate::reading::{Reading, Stage, has_stmt};
use md_reader_text::next_line;
use md_types::{Expanded, expand};
use std::alloc::Global;

fn wrong_at(line: u32, kind: DescKind) -> Result<Description, DescFault>
    ensures { result ≡ Err (desc_fault.Line line kind) }
{
    Err(DescFault::Line { line, kind })
}

ghost use Rattle.std.specs.Prelude.{Err, []};
ghost use Rattle.gg_base.specs.declared.limits.TheConstants.{DESCRIPTION_LIMIT};
ghost use Rattle.md_reader.specs.declared.faults.DescFault.TheVariants as desc_fault;

/// The text ends before the line with this number, and no `each` line is bad.
#[tactic(auto, using(crate::proofs::ValidLaws::is_valid))]
fn end(reading: Reading, line: u32) -> Result<Description, DescFault>
    requires { IsFine (state reading) [] }
    ensures { Answers result (ended line (state reading)) }
{
    match reading.stage {
        Stage::Version => wrong_at(line, DescKind::MissingVersion),
        Stage::Target => wrong_at(line, DescKind::MissingTarget),
        Stage::Pool => wrong_at(line, DescKind::MissingPool),
        Stage::Classes => {
            if has_stmt(&reading.classes) {
                wrong_at(line, DescKind::MissingSpill)
            } else {
                wrong_at(line, DescKind::MissingStmt)
            }
        }
        Stage::Spills => {
            if reading.spills.len() <= 6 {
                wrong_at(line, DescKind::MissingSpill)
            } else {
                wrong_at(line, DescKind::MissingReload)
            }
        }
        Stage::Rules => {
            if reading.rules.is_empty() {
                return wrong_at(line, DescKind::MissingRule);
            }
            Ok(Description::new(reading.pool, reading.classes, reading.spills, reading.rules))
        }
        Stage::Template => wrong_at(line, DescKind::MissingGive),
    }
}

/// The lines end, at the text's end or in front of a bad `each` line.
fn close(reading: Reading, bad: Option<u32>, line: u32) -> Result<Description, DescFault>
    requires { IsFine (state reading) [] }
    ensures { Answers result (closed bad line (state reading)) }
{
    match bad {
        None => end(reading, line),
        Some(bad) => wrong_at(bad, DescKind::BadEach),
    }
}

#[tactic(auto, using(crate::proofs::ValidLaws::begins))]
fn read_lines(
    alloc: Global,
    target: &[u8],
    text: &Expanded,
    end: u32,
) -> Result<Description, DescFault>
    ensures { Answers result (read_from target.now text.now.bad end start text.now.lines) }
{
    let mut reading = Reading {
        stage: Stage::Version,
        pool: 0,
        classes: Vec::new(alloc),
        spills: Vec::new(alloc),
        rules: Vec::new(alloc),
        left: 0,
        right: Vec::new(alloc),
        restrictions: Vec::new(alloc),
        lines: Vec::new(alloc),
        register: false,
    };
    let mut rest = text.lines.as_slice();
    while let [line, after @ ..] = rest {
        match reading.line(alloc, target, line, after) {
            Ok(()) => {}
            Err(LineFault::NoMemory) => return Err(DescFault::NoMemory),
            Err(LineFault::Wrong(kind)) => return wrong_at(line.from, kind),
        }
        rest = after;
    }
    close(reading, text.bad, end)
}

/// The number of the line behind the last.
fn line_behind(bytes: &[u8]) -> u32
    requires { length bytes.now ≤ DESCRIPTION_LIMIT }
    ensures { result ≡ line_behind bytes.now }
{
    let mut number: u32 = 1;
    let mut rest = bytes;
    while let Some((_, after)) = next_line(rest) {
        number += 1;
        rest = after;
    }
    number
}

fn read_all(alloc: Global, target: &[u8], bytes: &[u8]) -> Result<Description, DescFault>
    requires { length bytes.now ≤ DESCRIPTION_LIMIT }
    ensures { Answers result (read_for target.now bytes.now) }
{
    let Ok(text) = expand(alloc, bytes) else {
        return Err(DescFault::NoMemory);
    };
    read_lines(alloc, target, &text, line_behind(bytes))
}

/// The description that the bytes are, or the first wrong line and what is wrong there. The word of its `target` line must be
/// `target`; where that is empty or has a blank, which no word has, no bytes are a description.
#[tactic(auto, using(crate::proofs::ToldLaws::found, crate::proofs::AgainLaws::only, crate::proofs::AgainLaws::refusal, crate::proofs::FirstLaws::is_first))]
pub fn read_description_for(
    alloc: Global,
    bytes: &[u8],
    target: &[u8],
) -> Result<Description, DescFault>
    requires { length bytes.now ≤ DESCRIPTION_LIMIT }
    // The first wrong line, and there the first kind that applies.
    ensures answers { Answers result (read_for target.now bytes.now) }
    // What is read is a description, and that is its content.
    ensures found { IfOk result (λ d. DescFor target.now bytes.now d) }
    // They are no other's.
    ensures only { IfOk result (λ d. (c : Content) → DescFor target.now bytes.now c → d ≡ c) }
    // Where nothing is read the bytes are no description, unless memory ran out.
    ensures refused { IfErr result (RefusedFor target.now bytes.now) }
    // The line that is named is the first wrong one: all before it are taken.
    ensures first { IfErr result (IsFirstFor target.now bytes.now) }
{
    read_all(alloc, target, bytes)
}

/// The description for the VAX that the bytes are, or the first wrong line and what is wrong there.
pub fn read_description(alloc: Global, bytes: &[u8]) -> Result<Description, DescFault>
    requires { length bytes.now ≤ DESCRIPTION_LIMIT }
    // The first wrong line, and there the first kind that applies.
    ensures answers { Answers result (read bytes.now) }
    // What is read is a description, and that is its content.
    ensures found { IfOk result (λ d. Desc bytes.now d) }
    // They are no other's.
    ensures only { IfOk result (λ d. (c : Content) → Desc bytes.now c → d ≡ c) }
    // Where nothing is read the bytes are no description, unless memory ran out.
    ensures refused { IfErr result (Refused bytes.now) }
    // The line that is named is the first wrong one: all before it are taken.
    ensures first { IfErr result (IsFirst bytes.now) }
{
    read_description_for(alloc, bytes, "vax".as_bytes())
}
