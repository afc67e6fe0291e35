// The command `compile D S`.
ghost use Rattle.std.specs.Prelude.{◌≡◌, ℕ, List, IfOk, IfErr, OnOk, map, string_bytes};
ghost use Rattle.c_program.specs.Programs.{program};
ghost use Rattle.cmd_session.specs.Writing.{change, TakesAll};
ghost use Rattle.cmd_files.specs.Outsides.{lookup, outside};
ghost use Rattle.cmd_compile.specs.Lines.{pass_lines};
ghost use Rattle.cmd_compile.specs.Passing.{rises, passing, AreKept};
ghost use Rattle.cmd_compile.specs.Texts.{IsTextBy, HasNoText, LinesRefused};
ghost use Rattle.cmd_compile.specs.Outcome.{files, FailAtMost, Leaves};
ghost use Rattle.cmd_compile.specs.Exact.{IsExact};

use crate::passing::{all_changes, changed_lines};
use crate::text::text_of;
use c_typed::Program;
use cmd_check::{Accepted, Vax, read_accepted};
use cmd_files::{read_file, write_out};
use cmd_meaning::SourceText;
use cmd_session::{Status, no_memory, write_all};
use gg_base::{NoMemory, Text};
use gg_outside::{Folder, Sink, SinkFault};
use std::alloc::Global;
use vax_passes::Pass;

// The text of a program, and the lines of the passes.
#[derive(Drop)]
struct Told {
    text: String,
    lines: Text,
}

// The text of a program, and the lines that tell how many changes each pass made.
fn text_and_lines<E: Sink>(
    alloc: Global,
    accepted: &Accepted<Vax>,
    source: &Program,
    passes: &mut Vec<Box<dyn Pass>>,
    report: &mut E,
) -> Result<Told, Status>
    ensures text { IfOk result (λ told. IsTextBy (passing (λ p n c e. wrote p n c e) (λ p. made p) passes.old.items passes.new.items)
        accepted.now.content (program source.now.held) (string_bytes told.text)) }
    ensures lines { IfOk result (λ told. told.lines
        ≡ pass_lines 0 (rises (map (λ p. made p) passes.old.items) (map (λ p. made p) passes.new.items))) }
    ensures untold { OnOk result (report.new ≡ report.old) }
    ensures refused { IfErr result (λ status. HasNoText (program source.now.held) status
        (change E.Sink report.old report.new)) }
    ensures kept { AreKept (λ p. p.vtable) (λ p. made p) passes.old.items passes.new.items }
{
    let Ok(before) = all_changes(alloc, passes.as_slice()) else {
        return Err(no_memory(report));
    };
    let text = match text_of(alloc, accepted, source, passes, report) {
        Ok(text) => text,
        Err(status) => return Err(status),
    };
    match changed_lines(alloc, &before, passes.as_slice()) {
        Ok(lines) => Ok(Told { text, lines }),
        Err(NoMemory) => Err(no_memory(report)),
    }
}

// Writes the lines of the passes to the report.
fn write_lines<E: Sink>(report: &mut E, lines: &[u8]) -> Result<(), Status>
    ensures all { OnOk result (TakesAll (change E.Sink report.old report.new) lines.now) }
    ensures refused { IfErr result (λ status. LinesRefused lines.now status (change E.Sink report.old report.new)) }
{
    match write_all(report, lines) {
        Ok(()) => Ok(()),
        Err(SinkFault::NoMemory) => Err(Status::NoMemory),
        Err(SinkFault::Failed) => Err(Status::WriteFault),
    }
}

// The command, with what each of its statuses says.
fn read_and_write<F: Folder, O: Sink, E: Sink>(
    alloc: Global,
    description: &str,
    source: &str,
    folder: &mut F,
    out: &mut O,
    report: &mut E,
    passes: &mut Vec<Box<dyn Pass>>,
) -> Status
    ensures leaves { Leaves (passing (λ p n c e. wrote p n c e) (λ p. made p) passes.old.items passes.new.items)
        result (files description.now source.now)
        (outside F.Folder O.Sink E.Sink folder.old folder.new out.old out.new report.old report.new) }
    ensures names { FailAtMost (files description.now source.now) (lookup F.Folder folder.old folder.new) }
    ensures holds { (n : List ℕ) → F.holds folder.new n ≡ F.holds folder.old n }
    ensures kept { AreKept (λ p. p.vtable) (λ p. made p) passes.old.items passes.new.items }
{
    let accepted = match read_accepted(alloc, folder, description, report) {
        Ok(accepted) => accepted,
        Err(status) => return status,
    };
    let program: SourceText = match read_file(alloc, folder, source, report) {
        Ok(program) => program,
        Err(status) => return status,
    };
    let told = match text_and_lines(alloc, &accepted, program.program(), passes, report) {
        Ok(told) => told,
        Err(status) => return status,
    };
    match write_out(out, told.text.as_bytes(), report) {
        Ok(()) => {}
        Err(status) => return status,
    }
    match write_lines(report, told.lines.as_slice()) {
        Ok(()) => Status::Done,
        Err(status) => status,
    }
}

/// The command `compile D S`: reads the machine description `description` and the C source `source`, and writes to `out` the
/// assembly text of the code to which the passes lead from the source's code by the description. Its run does on every input what the
/// source's does. Then a line for each pass goes to `report`: its number from 1, and how many changes it made. A refusal writes its lines
/// to `report`. Nothing of the input is taken, and nothing is written to `out` before the whole text is there.
pub fn compile_source<F: Folder, O: Sink, E: Sink>(
    alloc: Global,
    description: &str,
    source: &str,
    folder: &mut F,
    out: &mut O,
    report: &mut E,
    passes: &mut Vec<Box<dyn Pass>>,
) -> Status
    // What was found in both files, where the passes led, and what both outputs gained.
    ensures leaves { Leaves (passing (λ p n c e. wrote p n c e) (λ p. made p) passes.old.items passes.new.items)
        result (files description.now source.now)
        (outside F.Folder O.Sink E.Sink folder.old folder.new out.old out.new report.old report.new) }
    // And that each status comes where its cause is there, but for counted faults and want of memory.
    ensures exact { IsExact result (files description.now source.now)
        (outside F.Folder O.Sink E.Sink folder.old folder.new out.old out.new report.old report.new) }
    // The folder is asked for these two names alone, and stays as it was.
    ensures names { FailAtMost (files description.now source.now) (lookup F.Folder folder.old folder.new) }
    ensures holds { (n : List ℕ) → F.holds folder.new n ≡ F.holds folder.old n }
    // The list holds the same passes in the same order, and no one's number of changes fell.
    ensures kept { AreKept (λ p. p.vtable) (λ p. made p) passes.old.items passes.new.items }
{
    read_and_write(alloc, description, source, folder, out, report, passes)
}
