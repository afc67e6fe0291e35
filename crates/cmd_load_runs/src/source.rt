// Runs of programs by their meaning.
ghost use Rattle.std.specs.Prelude.{◌≡◌, [], IfOk};
ghost use Rattle.c_program.specs.Programs.{program as plain};
ghost use Rattle.c_meaning.specs.Programs.{source};
ghost use Rattle.cmd_load_runs.specs.Tallies.{outcome_of};

use crate::tally::Tally;
use c_meaning::SourceRun;
use c_program::Program;
use gg_base::{End, NoMemory, SourceTurn};
use std::alloc::Global;

/// The run of a program on no input, with at most `count` counted turns of loops and calls. What it writes is kept in memory.
pub fn tally_source(alloc: Global, program: &Program, count: u64) -> Result<Tally, NoMemory>
    ensures { IfOk result (λ t. outcome_of t ≡ source (plain program.now) [] count) }
{
    let mut run = SourceRun::new(alloc, program, &[], count)?;
    let mut output = Vec::new(alloc);
    let mut number = 0;
    let end = loop {
        match run.advance()? {
            SourceTurn::Going => number += 1,
            SourceTurn::Wrote(byte) => output.push(byte)?,
            SourceTurn::Ended(value) => break End::Ended(value),
            SourceTurn::Trapped => break End::Trapped,
            SourceTurn::Wild => break End::Wild,
            SourceTurn::Deep => break End::Deep,
            SourceTurn::Spent => break End::Spent,
        }
    };
    Ok(Tally {
        output,
        end,
        number,
    })
}
