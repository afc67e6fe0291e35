// A source's run, moment by moment.
use c_meaning::SourceRun;
use cmd_session::{Moment, Run};
use gg_base::{End, NoMemory, SourceTurn};

/// The run of a source by its meaning.
#[derive(Drop)]
pub struct MeaningRun<'a> {
    pub run: SourceRun<'a>,
}

impl Run for MeaningRun<'_> {
    ghost use Rattle.cmd_session.specs.Running.{coming_of};
    ghost use Rattle.cmd_meaning.specs.Moments.{left_of};

    ghost coming = { λ r. coming_of r.run.remaining.outcome };

    ghost left = { λ r. left_of r.run.remaining };

    fn advance(&mut self) -> Result<Moment, NoMemory> {
        match self.run.advance()? {
            SourceTurn::Going => Ok(Moment::Going),
            SourceTurn::Wrote(byte) => Ok(Moment::Wrote(byte)),
            SourceTurn::Ended(value) => Ok(Moment::Over(End::Ended(value))),
            SourceTurn::Trapped => Ok(Moment::Over(End::Trapped)),
            SourceTurn::Wild => Ok(Moment::Over(End::Wild)),
            SourceTurn::Deep => Ok(Moment::Over(End::Deep)),
            SourceTurn::Spent => Ok(Moment::Over(End::Spent)),
        }
    }
}
