// Both sides of a generated source: the run of the source by its meaning, and the run of its text.
ghost use Rattle.std.specs.Prelude.{◌≡◌, [], IfOk, OnOk};
ghost use Rattle.c_program.specs.Programs.{program as plain};
ghost use Rattle.c_meaning.specs.Programs.{source};
ghost use Rattle.vax_core.specs.declared.code.Code.{Code as ACode};
ghost use Rattle.vax_reader.specs.Grammar.{Reads};
ghost use Rattle.vax_machine.specs.Running.{run};
ghost use Rattle.cmd_session.specs.Writing.{change};
ghost use Rattle.cmd_load_runs.specs.Tallies.{outcome_of, IsRunnable};
ghost use Rattle.cmd_load.specs.Telling.{greatest_number, SummaryTold, EndsTold, SidesTold};

use crate::summary::{Summary, summary_line};
use c_program::Program;
use cmd_files::write_out;
use cmd_load_runs::{Tally, tally_source, tally_text};
use cmd_session::lines::end_line;
use cmd_session::{Status, no_memory, refuse_with, write_all};
use gg_base::{End, NoMemory};
use gg_outside::{Sink, SinkFault};
use std::alloc::Global;

/// How many turns and how many instructions the two sides may take.
fn greatest_number() -> u64
    ensures { result ≡ greatest_number }
{
    100_000_000
}

/// What both sides came to.
#[derive(Drop)]
pub struct Sides {
    pub source: Tally,
    pub text: Tally,
}

/// How many functions a source has beside `main`, and how many bytes it and its text have.
#[derive(Clone, Copy)]
pub struct Sizes {
    pub functions: u32,
    pub source: usize,
    pub text: usize,
}

/// Runs a program and its text on no input.
pub fn run_sides(alloc: Global, program: &Program, text: &[u8]) -> Result<Sides, NoMemory>
    requires { IsRunnable text.now }
    ensures source { IfOk result (λ s. outcome_of s.source ≡ source (plain program.now) [] greatest_number) }
    ensures text { (code : ACode) → Reads text.now code → IfOk result (λ s. outcome_of s.text ≡ run code [] greatest_number) }
{
    let number = greatest_number();
    Ok(Sides {
        source: tally_source(alloc, program, number)?,
        text: tally_text(alloc, text, number)?,
    })
}

// Writes the line of a summary.
fn tell_summary<E: Sink>(alloc: Global, summary: Summary, report: &mut E) -> Status
    ensures { SummaryTold summary result (change E.Sink report.old report.new) }
{
    let Ok(line) = summary_line(alloc, summary) else {
        return no_memory(report);
    };
    match write_all(report, line.as_slice()) {
        Ok(()) => Status::Done,
        Err(SinkFault::NoMemory) => Status::NoMemory,
        Err(SinkFault::Failed) => Status::WriteFault,
    }
}

// Tells how both sides ended.
fn tell_ends<E: Sink>(alloc: Global, sizes: Sizes, sides: &Sides, report: &mut E) -> Status
    ensures { EndsTold sizes (outcome_of sides.now.source) (outcome_of sides.now.text) result
        (change E.Sink report.old report.new) }
{
    let Sides { source, text } = sides;
    match (source.end, text.end) {
        (End::Ended(_), End::Ended(value)) => {
            let summary = Summary {
                functions: sizes.functions,
                source: sizes.source,
                text: sizes.text,
                turns: source.number,
                instructions: text.number,
                output: text.output.len(),
                value,
            };
            tell_summary(alloc, summary, report)
        }
        _ => {
            let line = end_line(alloc, End::Spent, greatest_number());
            refuse_with(report, line, Status::Spent)
        }
    }
}

/// Writes the output of the text's run, and then a line of how both sides ended.
pub fn tell_sides<O: Sink, E: Sink>(
    alloc: Global,
    sizes: Sizes,
    sides: &Sides,
    out: &mut O,
    report: &mut E,
) -> Status
    ensures { SidesTold sizes (outcome_of sides.now.source) (outcome_of sides.now.text) result
        (change O.Sink out.old out.new) (change E.Sink report.old report.new) }
{
    match write_out(out, sides.text.output.as_slice(), report) {
        Ok(()) => tell_ends(alloc, sizes, sides, report),
        Err(status) => status,
    }
}
