// Assembly texts of L32 as files whose codes are run.
ghost use Rattle.std.specs.Prelude.{◌≡◌, true};
ghost use Rattle.l32_core.specs.Valid.{is_code};
ghost use Rattle.cmd_session.specs.Writing.{change};
ghost use Rattle.cmd_run32.specs.Refusing.{CodeIsRefused};

use crate::counted::CountedRun;
use crate::lines::load_line;
use cmd_files::{FileForm, Refusal, Runs};
use cmd_run::lines::wrong_line;
use cmd_session::{Status, no_memory, refuse_with, tell_run};
use gg_base::limits::TEXT_LIMIT;
use gg_outside::Sink;
use l32_core::Code32;
use l32_machine::{Load32Fault, load32};
use l32_reader::{Asm32Fault, read32};
use std::alloc::Global;

/// The code of an assembly text of L32: a valid one.
#[derive(Drop)]
pub struct CodeText32 {
    code: Code32,
    ghost valid: { is_code code ≡ true },
}

// Tells why a code can't be run.
fn refuse_code<E: Sink>(alloc: Global, report: &mut E, fault: &Load32Fault) -> Status
    ensures { CodeIsRefused fault.now result (change E.Sink report.old report.new) }
{
    match fault {
        Load32Fault::NoMemory => no_memory(report),
        _ => refuse_with(report, load_line(alloc, fault), Status::AsmRefused),
    }
}

impl FileForm for CodeText32 {
    ghost use Rattle.l32_core.specs.declared.code.Code32.{Code32};
    ghost use Rattle.cmd_files.specs.Forms.{not_translated};
    ghost use Rattle.cmd_run32.specs.Texts.{text_form, code_runner};

    ghost Item = { Code32 };

    ghost form = { text_form };

    ghost runner = { code_runner };

    ghost becomes = { not_translated };

    ghost item = { λ t. t.code };

    fn limit() -> u64 {
        TEXT_LIMIT
    }

    fn status() -> Status {
        Status::AsmRefused
    }

    fn read(alloc: Global, bytes: &[u8]) -> Result<Self, Refusal> {
        match read32(alloc, bytes) {
            Ok(code) => Ok(CodeText32 { code }),
            Err(Asm32Fault::NoMemory) => Err(Refusal::NoMemory),
            Err(Asm32Fault::Line { line, kind }) => {
                let line = wrong_line(alloc, line, kind)?;
                Err(Refusal::Line(line))
            }
        }
    }
}

impl Runs for CodeText32 {
    fn tell<O: Sink, E: Sink>(
        &self,
        alloc: Global,
        input: &[u8],
        count: u64,
        out: &mut O,
        report: &mut E,
    ) -> Status {
        match load32(alloc, &self.code, input) {
            Ok(machine) => {
                let mut run = CountedRun {
                    machine,
                    left: count,
                };
                tell_run(alloc, &mut run, count, out, report)
            }
            Err(fault) => refuse_code(alloc, report, &fault),
        }
    }
}
