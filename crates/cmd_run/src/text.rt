// Assembly texts as files whose codes are run.
ghost use Rattle.std.specs.Prelude.{◌≡◌, true};
ghost use Rattle.vax_core.specs.Valid.{is_code};
ghost use Rattle.cmd_session.specs.Writing.{change};
ghost use Rattle.cmd_run.specs.Refusing.{CodeIsRefused};

use crate::counted::CountedRun;
use crate::lines::{load_line, wrong_line};
use cmd_files::{FileForm, Refusal, Runs};
use cmd_session::{Status, no_memory, refuse_with, tell_run};
use gg_base::limits::TEXT_LIMIT;
use gg_outside::Sink;
use std::alloc::Global;
use vax_core::Code;
use vax_machine::laws::loaded_machine_runs_so;
use vax_machine::{LoadFault, load};
use vax_reader::{AsmFault, read_code};

/// The code of an assembly text: a valid one.
#[derive(Drop)]
pub struct CodeText {
    code: Code,
    ghost valid: { is_code code ≡ true },
}

// Tells why a code can't be run.
fn refuse_code<E: Sink>(alloc: Global, report: &mut E, fault: &LoadFault) -> Status
    ensures { CodeIsRefused fault.now result (change E.Sink report.old report.new) }
{
    match fault {
        LoadFault::NoMemory => no_memory(report),
        _ => refuse_with(report, load_line(alloc, fault), Status::AsmRefused),
    }
}

impl FileForm for CodeText {
    ghost use Rattle.vax_core.specs.declared.code.Code.{Code};
    ghost use Rattle.cmd_files.specs.Forms.{not_translated};
    ghost use Rattle.cmd_run.specs.Texts.{text_form, code_runner};

    ghost Item = { Code };

    ghost form = { text_form };

    ghost runner = { code_runner };

    ghost becomes = { not_translated };

    ghost item = { λ t. t.code };

    fn limit() -> u64 {
        TEXT_LIMIT
    }

    fn status() -> Status {
        Status::AsmRefused
    }

    fn read(alloc: Global, bytes: &[u8]) -> Result<Self, Refusal> {
        match read_code(alloc, bytes) {
            Ok(code) => Ok(CodeText { code }),
            Err(AsmFault::NoMemory) => Err(Refusal::NoMemory),
            Err(AsmFault::Line { line, kind }) => {
                let line = wrong_line(alloc, line, kind)?;
                Err(Refusal::Line(line))
            }
        }
    }
}

impl Runs for CodeText {
    fn tell<O: Sink, E: Sink>(
        &self,
        alloc: Global,
        input: &[u8],
        count: u64,
        out: &mut O,
        report: &mut E,
    ) -> Status {
        loaded_machine_runs_so();
        match load(alloc, &self.code, input) {
            Ok(machine) => {
                let mut run = CountedRun {
                    machine,
                    left: count,
                };
                tell_run(alloc, &mut run, count, out, report)
            }
            Err(fault) => refuse_code(alloc, report, &fault),
        }
    }
}
