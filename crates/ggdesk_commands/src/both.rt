// A source compiled by the shipped description, or by it with fewer registers, and run on both sides.

use crate::fronts::stops_of;
use crate::passes::PassName;
use crate::world::{SOURCE, TEXT, folder_of, put_file, ran, refusal};
use cmd_files::read_file;
use cmd_meaning::SourceText;
use cmd_session::Status;
use cmd_top::{Accepted, Vax, read_accepted, text_of};
use gg_outside::{MemFolder, MemSink};
use gg_texts::VAX_GG;
use std::alloc::{AllocError, Global};
use vax_codes::{JumpChain, NeedlessTest};
use vax_passes::{DeadTail, NextJump, Pass};

// The line of the shipped description that names its registers.
const POOL: &str = "pool r0 r1 r2 r3 r4 r5\n";

// The shipped description, with so many registers in its pool.
fn description(alloc: Global, registers: &str) -> Result<String, AllocError> {
    let pool = match registers {
        "1" => "pool r0\n",
        "2" => "pool r0 r1\n",
        "3" => "pool r0 r1 r2\n",
        _ => POOL,
    };
    match VAX_GG.split_once(POOL) {
        Some((head, rest)) => format!(in alloc; "{head}{pool}{rest}"),
        None => String::from_str(alloc, VAX_GG),
    }
}

/// The description with so many registers, accepted, or what `compile` leaves behind where it is refused.
#[derive(Drop)]
pub struct Opened {
    pub registers: String,
    accepted: Result<Accepted<Vax>, String>,
}

// The description of this text, accepted, or what `compile` leaves behind where it is refused.
fn accepted_of(alloc: Global, text: &str) -> Result<Result<Accepted<Vax>, String>, AllocError> {
    let mut folder = folder_of(alloc, "d", text.as_bytes())?;
    let mut report = MemSink::new(alloc, 1, Vec::new(alloc));
    match read_accepted(alloc, &mut folder, "d", &mut report) {
        Ok(accepted) => Ok(Ok(accepted)),
        Err(status) => Ok(Err(refusal(alloc, status, &report)?)),
    }
}

/// The shipped description, with so many registers in its pool, read and checked.
pub fn open(alloc: Global, registers: &str) -> Result<Opened, AllocError> {
    let text = description(alloc, registers)?;
    Ok(Opened {
        registers: String::from_str(alloc, registers)?,
        accepted: accepted_of(alloc, text.as_str())?,
    })
}

// The text of a source that was read, by those of the passes that are shipped, or what `compile` leaves behind where there is none.
fn written(
    alloc: Global,
    accepted: &Accepted<Vax>,
    source: &SourceText,
    names: &[PassName],
) -> Result<Result<String, String>, AllocError> {
    let mut report = MemSink::new(alloc, 1, Vec::new(alloc));
    let mut passes: Vec<Box<dyn Pass>> = Vec::new(alloc);
    for name in names {
        match name {
            PassName::Chain => passes.push(Box::new(alloc, JumpChain::new(alloc))?)?,
            PassName::Next => passes.push(Box::new(alloc, NextJump::new(alloc))?)?,
            PassName::Dead => passes.push(Box::new(alloc, DeadTail::new(alloc))?)?,
            PassName::Test => passes.push(Box::new(alloc, NeedlessTest::new(alloc))?)?,
            _ => {}
        }
    }
    match text_of(alloc, accepted, source.program(), &mut passes, &mut report) {
        Ok(text) => Ok(Ok(text)),
        Err(status) => Ok(Err(refusal(alloc, status, &report)?)),
    }
}

// The text of the source, or what `compile` leaves behind where there is none.
fn compiled(
    alloc: Global,
    accepted: &Accepted<Vax>,
    source: &str,
    names: &[PassName],
) -> Result<Result<String, String>, AllocError> {
    let mut folder = folder_of(alloc, SOURCE, source.as_bytes())?;
    let mut report = MemSink::new(alloc, 1, Vec::new(alloc));
    let read: Result<SourceText, Status> = read_file(alloc, &mut folder, SOURCE, &mut report);
    match read {
        Ok(source) => written(alloc, accepted, &source, names),
        Err(status) => Ok(Err(refusal(alloc, status, &report)?)),
    }
}

// What the text and the source leave behind.
fn both(
    alloc: Global,
    text: &str,
    source: &str,
    count: u64,
    input: &str,
) -> Result<String, AllocError> {
    let mut files = Vec::new(alloc);
    put_file(alloc, &mut files, TEXT, text.as_bytes())?;
    put_file(alloc, &mut files, SOURCE, source.as_bytes())?;
    let mut folder = MemFolder::new(alloc, files, Vec::new(alloc));
    let run = ran(alloc, &mut folder, true, count, input)?;
    let meaning = ran(alloc, &mut folder, false, count, input)?;
    if run == meaning {
        return Ok(run);
    }
    format!(in alloc; "{run}, by its meaning {meaning}")
}

/// How the writing of a source's text ends at each of its calls that fails, or how the source is refused.
pub fn written_of(alloc: Global, opened: &Opened, source: &str) -> Result<String, AllocError> {
    match &opened.accepted {
        Ok(accepted) => match compiled(alloc, accepted, source, &[])? {
            Ok(text) => stops_of(alloc, text.as_str()),
            Err(told) => Ok(told),
        },
        Err(told) => String::from_str(alloc, told.as_str()),
    }
}

/// What both sides of a source leave behind, its text being written by these passes; or how it is refused.
pub fn told_of(
    alloc: Global,
    opened: &Opened,
    source: &str,
    count: u64,
    input: &str,
    names: &[PassName],
) -> Result<String, AllocError> {
    match &opened.accepted {
        Ok(accepted) => match compiled(alloc, accepted, source, names)? {
            Ok(text) => both(alloc, text.as_str(), source, count, input),
            Err(told) => Ok(told),
        },
        Err(told) => String::from_str(alloc, told.as_str()),
    }
}
