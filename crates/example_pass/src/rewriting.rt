// A text, rewritten by passes that are given by their names.
ghost use Rattle.std.specs.Prelude.{IfOk, string_bytes};
ghost use Rattle.example_pass.specs.Rewritten.{IsRewritten};

use crate::both::Both;
use gg_base::NoMemory;
use std::alloc::{AllocError, AllocFailed, Global};
use thiserror::Error;
use vax_codes::{JumpChain, NeedlessTest};
use vax_passes::{DeadTail, NextJump, Pass, run_passes};
use vax_reader::{AsmFault, AsmKind, read_code};
use vax_writer::write_code;

/// A text, and how many changes each pass has made.
#[derive(Drop)]
pub struct Rewritten {
    pub text: String,
    pub changes: Vec<u64>,
}

/// Why no text is written.
#[derive(Debug, Drop, Error)]
pub enum Refusal {
    #[error("a word names no pass")]
    Word,
    /// The first line that is not of the grammar, counted from 1.
    #[error("line {line}: {kind:?}")]
    Line { line: u64, kind: AsmKind },
    #[error("no memory")]
    NoMemory,
}

impl From<NoMemory> for Refusal {
    fn from(_: NoMemory) -> Self {
        Refusal::NoMemory
    }
}

impl From<AllocError> for Refusal {
    fn from(_: AllocError) -> Self {
        Refusal::NoMemory
    }
}

impl<T: Drop> From<AllocFailed<T>> for Refusal {
    fn from(_: AllocFailed<T>) -> Self {
        Refusal::NoMemory
    }
}

impl From<AsmFault> for Refusal {
    fn from(fault: AsmFault) -> Self {
        match fault {
            AsmFault::NoMemory => Refusal::NoMemory,
            AsmFault::Line { line, kind } => Refusal::Line { line, kind },
        }
    }
}

/// Runs the passes of these names, one after another, over the code whose text the bytes are. What is written is the text of a code that
/// behaves as that one does, whatever passes these are.
#[tactic(auto, using(crate::proofs::Making::rewritten))]
pub fn rewrite_text(alloc: Global, names: &[String], bytes: &[u8]) -> Result<Rewritten, Refusal>
    ensures { IfOk result (λ r. IsRewritten bytes.now (string_bytes r.text)) }
{
    let mut passes: Vec<Box<dyn Pass>> = Vec::new(alloc);
    for name in names {
        match name.as_str() {
            "chain" => passes.push(Box::new(alloc, JumpChain::new(alloc))?)?,
            "next" => passes.push(Box::new(alloc, NextJump::new(alloc))?)?,
            "dead" => passes.push(Box::new(alloc, DeadTail::new(alloc))?)?,
            "test" => passes.push(Box::new(alloc, NeedlessTest::new(alloc))?)?,
            "both" => passes.push(Box::new(
                alloc,
                Both::new(DeadTail::new(alloc), NextJump::new(alloc)),
            )?)?,
            _ => return Err(Refusal::Word),
        }
    }
    let code = read_code(alloc, bytes)?;
    let code = run_passes(&mut passes, code)?;
    let mut text = String::new(alloc);
    write_code(&code, &mut text)?;
    let mut changes = Vec::new(alloc);
    for pass in &passes {
        changes.push(pass.changes())?;
    }
    Ok(Rewritten { text, changes })
}
