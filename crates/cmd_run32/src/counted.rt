// A machine that may do a number of steps.
use cmd_session::{Moment, Run};
use gg_base::{End, NoMemory};
use l32_machine::{Machine32, Turn32};

/// A machine with the number of steps that it may still do.
#[derive(Drop)]
pub struct CountedRun<'a> {
    pub machine: Machine32<'a>,
    pub left: u64,
}

impl Run for CountedRun<'_> {
    ghost use Rattle.l32_machine.specs.View.{state};
    ghost use Rattle.cmd_run32.specs.Counting.{coming};

    ghost coming = { λ r. coming r.left (state r.machine) };

    ghost left = { λ r. r.left };

    fn advance(&mut self) -> Result<Moment, NoMemory> {
        if self.left == 0 {
            return Ok(Moment::Over(End::Spent));
        }
        self.left -= 1;
        match self.machine.step() {
            Turn32::Going => Ok(Moment::Going),
            Turn32::Wrote(byte) => Ok(Moment::Wrote(byte)),
            Turn32::Ended(value) => Ok(Moment::Over(End::Ended(value))),
            Turn32::Trapped => Ok(Moment::Over(End::Trapped)),
            Turn32::Broken(kind) => Ok(Moment::Over(End::Broken(kind.kind()))),
        }
    }
}
