// The text of a program's code.
ghost use Rattle.std.specs.Prelude.{◌≡◌, true, IfOk, IfErr, OnOk, string_bytes};
ghost use Rattle.c_program.specs.Programs.{program};
ghost use Rattle.vax_core.specs.Valid.{is_code};
ghost use Rattle.cmd_session.specs.Writing.{change};
ghost use Rattle.cmd_compile.specs.Passing.{passing, AreKept};
ghost use Rattle.cmd_compile.specs.Texts.{IsCodeOf, IsPassedText, IsTextBy, HasNoText};

use crate::lines::frame_line;
use c_typed::Program;
use cmd_session::{Status, no_memory, refuse_with};
use gg_base::NoMemory;
use gg_compile::{Accepted, CompileFault, Vax, compile};
use gg_outside::Sink;
use std::alloc::Global;
use vax_alike::laws::alike_runs_follow;
use vax_core::Code;
use vax_passes::{Pass, run_passes};
use vax_writer::write_code;

// The code that is selected of a program's trees.
fn selected_code<E: Sink>(
    alloc: Global,
    accepted: &Accepted<Vax>,
    source: &Program,
    report: &mut E,
) -> Result<Code, Status>
    ensures code { IfOk result (IsCodeOf accepted.now.content (program source.now.held)) }
    ensures untold { OnOk result (report.new ≡ report.old) }
    ensures refused { IfErr result (λ status. HasNoText (program source.now.held) status
        (change E.Sink report.old report.new)) }
{
    match compile(alloc, accepted, source) {
        Ok(compiled) => Ok(compiled.code),
        Err(CompileFault::NoMemory) => Err(no_memory(report)),
        Err(CompileFault::FrameFull { function, need }) => {
            let line = frame_line(alloc, source, function, need);
            Err(refuse_with(report, line, Status::FrameFull))
        }
    }
}

// The text of the code to which passes lead from that one.
fn passed_text(
    alloc: Global,
    code: Code,
    passes: &mut Vec<Box<dyn Pass>>,
) -> Result<String, NoMemory>
    requires { is_code code ≡ true }
    ensures text { IfOk result (λ text. IsPassedText (passing (λ p n c e. wrote p n c e) (λ p. made p) passes.old.items passes.new.items)
        code (string_bytes text)) }
    ensures kept { AreKept (λ p. p.vtable) (λ p. made p) passes.old.items passes.new.items }
{
    let code = run_passes(passes, code)?;
    let mut text = String::new(alloc);
    write_code(&code, &mut text)?;
    Ok(text)
}

/// The text of the code to which the passes lead from a program's code by an accepted description. Where there is none, one line was
/// written to `report`, and the status of that refusal is answered.
pub fn text_of<E: Sink>(
    alloc: Global,
    accepted: &Accepted<Vax>,
    source: &Program,
    passes: &mut Vec<Box<dyn Pass>>,
    report: &mut E,
) -> Result<String, Status>
    ensures text { IfOk result (λ text. IsTextBy (passing (λ p n c e. wrote p n c e) (λ p. made p) passes.old.items passes.new.items)
        accepted.now.content (program source.now.held) (string_bytes text)) }
    ensures untold { OnOk result (report.new ≡ report.old) }
    ensures refused { IfErr result (λ status. HasNoText (program source.now.held) status
        (change E.Sink report.old report.new)) }
    ensures kept { AreKept (λ p. p.vtable) (λ p. made p) passes.old.items passes.new.items }
{
    alike_runs_follow();
    let code = match selected_code(alloc, accepted, source, report) {
        Ok(code) => code,
        Err(status) => return Err(status),
    };
    match passed_text(alloc, code, passes) {
        Ok(text) => Ok(text),
        Err(NoMemory) => Err(no_memory(report)),
    }
}
