// Runs of the codes of assembly texts.
ghost use Rattle.std.specs.Prelude.{◌≡◌, [], true, IfOk};
ghost use Rattle.vax_core.specs.declared.code.Code.{Code as ACode};
ghost use Rattle.vax_core.specs.Valid.{is_code};
ghost use Rattle.vax_reader.specs.Grammar.{Reads};
ghost use Rattle.vax_machine.specs.Loading.{Loads};
ghost use Rattle.vax_machine.specs.Running.{steps, run};
ghost use Rattle.vax_machine.specs.View.{state};
ghost use Rattle.cmd_load_runs.specs.Tallies.{outcome_of, IsRunnable};

use crate::tally::Tally;
use gg_base::{End, NoMemory};
use std::alloc::Global;
use vax_core::Code;
use vax_machine::laws::loaded_machine_runs_so;
use vax_machine::{LoadFault, Machine, Turn, load};
use vax_reader::{AsmFault, read_code};

// At most `count` steps of a machine.
fn tally_machine(alloc: Global, machine: &mut Machine, count: u64) -> Result<Tally, NoMemory>
    ensures { IfOk result (λ t. outcome_of t ≡ steps count (state machine.old)) }
{
    let mut output = Vec::new(alloc);
    let mut number = 0;
    while number < count {
        number += 1;
        let end = match machine.step() {
            Turn::Going => continue,
            Turn::Wrote(byte) => {
                output.push(byte)?;
                continue;
            }
            Turn::Ended(value) => End::Ended(value),
            Turn::Trapped => End::Trapped,
            Turn::Broken(kind) => End::Broken(kind),
        };
        return Ok(Tally {
            output,
            end,
            number,
        });
    }
    Ok(Tally {
        output,
        end: End::Spent,
        number,
    })
}

// The run of a code.
fn tally_code(alloc: Global, code: &Code, count: u64) -> Result<Tally, NoMemory>
    requires valid { is_code code.now ≡ true }
    requires loads { Loads code.now }
    ensures { IfOk result (λ t. outcome_of t ≡ run code.now [] count) }
{
    loaded_machine_runs_so();
    match load(alloc, code, &[]) {
        Ok(mut machine) => tally_machine(alloc, &mut machine, count),
        Err(LoadFault::NoMemory) => Err(NoMemory),
        Err(LoadFault::DoubleLabel(_))
        | Err(LoadFault::UndefinedLabel(_))
        | Err(LoadFault::NoMain)
        | Err(LoadFault::TooLarge) => unreachable!(),
    }
}

/// The run of a text's code on no input, for at most `count` instructions. What it writes is kept in memory.
pub fn tally_text(alloc: Global, text: &[u8], count: u64) -> Result<Tally, NoMemory>
    requires { IsRunnable text.now }
    ensures { (code : ACode) → Reads text.now code → IfOk result (λ t. outcome_of t ≡ run code [] count) }
{
    match read_code(alloc, text) {
        Ok(code) => tally_code(alloc, &code, count),
        Err(AsmFault::NoMemory) => Err(NoMemory),
        Err(AsmFault::Line { .. }) => unreachable!(),
    }
}
