// Running a machine for some steps.
ghost use Rattle.std.specs.Prelude.{IfOk};
ghost use Rattle.vax_machine.specs.View.{state};
ghost use Rattle.vax_machine.specs.Running.{steps, Ran};

use crate::machine::Machine;
use crate::turn::Turn;
use gg_base::{End, NoMemory};

/// Does at most `count` steps, and says how the run stands behind them; what they write goes to the end of `out`.
pub fn run_for(machine: &mut Machine, count: u64, out: &mut Vec<u8>) -> Result<End, NoMemory>
    ensures { IfOk result (λ end. Ran (steps count (state machine.old)) out.old.items out.new.items end) }
{
    for _ in 0..count {
        match machine.step() {
            Turn::Going => {}
            Turn::Wrote(byte) => out.push(byte)?,
            Turn::Ended(value) => return Ok(End::Ended(value)),
            Turn::Trapped => return Ok(End::Trapped),
            Turn::Broken(kind) => return Ok(End::Broken(kind)),
        }
    }
    Ok(End::Spent)
}
