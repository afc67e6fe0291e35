// A text, changed as its words say, where that is shown to keep what it does.
ghost use Rattle.std.specs.Prelude.{IfOk, string_bytes};
ghost use Rattle.example_validated.specs.Changed.{IsChanged};

use gg_base::NoMemory;
use std::alloc::{AllocError, AllocFailed, Global};
use thiserror::Error;
use vax_changes::{DeadWrite, Forward, SpareTest};
use vax_passes::{Pass, run_passes};
use vax_reader::{AsmFault, AsmKind, read_code};
use vax_validated::Validated;
use vax_writer::write_code;

/// A text, and how many codes of each change were taken.
#[derive(Drop)]
pub struct Changed {
    pub text: String,
    pub changes: Vec<u64>,
}

/// Why no text is written.
#[derive(Debug, Drop, Error)]
pub enum Refusal {
    #[error("a word names no change")]
    Word,
    /// The first line that is not of the grammar, counted from 1.
    #[error("line {line}: {kind:?}")]
    Line { line: u64, kind: AsmKind },
    #[error("no memory")]
    NoMemory,
}

impl From<NoMemory> for Refusal {
    fn from(_: NoMemory) -> Self {
        Refusal::NoMemory
    }
}

impl From<AllocError> for Refusal {
    fn from(_: AllocError) -> Self {
        Refusal::NoMemory
    }
}

impl<T: Drop> From<AllocFailed<T>> for Refusal {
    fn from(_: AllocFailed<T>) -> Self {
        Refusal::NoMemory
    }
}

impl From<AsmFault> for Refusal {
    fn from(fault: AsmFault) -> Self {
        match fault {
            AsmFault::NoMemory => Refusal::NoMemory,
            AsmFault::Line { line, kind } => Refusal::Line { line, kind },
        }
    }
}

/// Tries the changes of these names, one after another, over the code whose text the bytes are. What is written is the text of a code that
/// behaves as that one does, whatever the changes are.
#[tactic(auto, using(crate::proofs::Making::changed))]
pub fn change_text(alloc: Global, names: &[String], bytes: &[u8]) -> Result<Changed, Refusal>
    ensures { IfOk result (λ r. IsChanged bytes.now (string_bytes r.text)) }
{
    let mut passes: Vec<Box<dyn Pass>> = Vec::new(alloc);
    for name in names {
        match name.as_str() {
            "dead" => passes.push(Box::new(alloc, Validated::new(alloc, DeadWrite))?)?,
            "forward" => passes.push(Box::new(alloc, Validated::new(alloc, Forward))?)?,
            "test" => passes.push(Box::new(alloc, Validated::new(alloc, SpareTest))?)?,
            _ => return Err(Refusal::Word),
        }
    }
    let code = read_code(alloc, bytes)?;
    let code = run_passes(&mut passes, code)?;
    let mut text = String::new(alloc);
    write_code(&code, &mut text)?;
    let mut changes = Vec::new(alloc);
    for pass in &passes {
        changes.push(pass.changes())?;
    }
    Ok(Changed { text, changes })
}
