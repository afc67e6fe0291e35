// A machine that may do a number of steps.
use cmd_session::{Moment, Run};
use gg_base::{End, NoMemory};
use vax_machine::{Machine, Turn};

/// A machine with the number of steps that it may still do.
#[derive(Drop)]
pub struct CountedRun<'a> {
    pub machine: Machine<'a>,
    pub left: u64,
}

impl Run for CountedRun<'_> {
    ghost use Rattle.vax_machine.specs.View.{state};
    ghost use Rattle.cmd_run.specs.Counting.{coming};

    ghost coming = { λ r. coming r.left (state r.machine) };

    ghost left = { λ r. r.left };

    fn advance(&mut self) -> Result<Moment, NoMemory> {
        if self.left == 0 {
            return Ok(Moment::Over(End::Spent));
        }
        self.left -= 1;
        match self.machine.step() {
            Turn::Going => Ok(Moment::Going),
            Turn::Wrote(byte) => Ok(Moment::Wrote(byte)),
            Turn::Ended(value) => Ok(Moment::Over(End::Ended(value))),
            Turn::Trapped => Ok(Moment::Over(End::Trapped)),
            Turn::Broken(kind) => Ok(Moment::Over(End::Broken(kind))),
        }
    }
}
