// Running a machine for some steps.
ghost use Rattle.std.specs.Prelude.{IfOk};
ghost use Rattle.l32_machine.specs.View.{state};
ghost use Rattle.l32_machine.specs.Running.{steps, Ran};

use crate::machine::Machine32;
use crate::turn::Turn32;
use gg_base::{End, NoMemory};

/// Does at most `count` steps, and says how the run stands behind them; what they write goes to the end of `out`.
pub fn run32_for(machine: &mut Machine32, count: u64, out: &mut Vec<u8>) -> Result<End, NoMemory>
    ensures { IfOk result (λ end. Ran (steps count (state machine.old)) out.old.items out.new.items end) }
{
    for _ in 0..count {
        match machine.step() {
            Turn32::Going => {}
            Turn32::Wrote(byte) => out.push(byte)?,
            Turn32::Ended(value) => return Ok(End::Ended(value)),
            Turn32::Trapped => return Ok(End::Trapped),
            Turn32::Broken(kind) => return Ok(End::Broken(kind.kind())),
        }
    }
    Ok(End::Spent)
}
