// Writing a run's output while it goes on.
ghost use Rattle.std.specs.Prelude.{◌≡◌, ℕ, IfOk, OnOk};
ghost use Rattle.gg_outside.specs.Outside.{count_after_write};
ghost use Rattle.cmd_session.specs.Writing.{change, Gains, GainsFront};
ghost use Rattle.cmd_session.specs.Running.{Coming, Passes, Falls};
ghost use Rattle.cmd_session.specs.Telling.{Tells};

use crate::lines::{end_line, end_status};
use crate::output::{no_memory, refuse, write_all};
use crate::status::Status;
use gg_base::{End, NoMemory};
use gg_outside::{Sink, SinkFault};
use std::alloc::Global;

/// What a run does next.
#[derive(Clone, Copy, Debug, PartialEq, Eq)]
pub enum Moment {
    /// It goes on.
    Going,
    /// It writes this byte and goes on.
    Wrote(u8),
    /// It has come to this end.
    Over(End),
}

/// A run that is done moment by moment.
pub trait Run {
    /// What is still to come of it.
    ghost coming: { Self → Coming };

    /// How many moments are left, at most.
    ghost left: { Self → ℕ };

    /// Goes on to the next moment.
    fn advance(&mut self) -> Result<Moment, NoMemory>
        ensures passes { IfOk result (λ m. Passes (coming self.old) m (coming self.new)) }
        ensures falls { IfOk result (λ m. Falls (left self.old) m (left self.new)) };
}

/// How many bytes are kept before they are written.
const PIECE: usize = 65_536;

/// Does a run to its end. Its output goes to the sink in its order, each time that 65,536 bytes of it are there, and all of it
/// before the end is answered.
pub fn write_run<R: Run, K: Sink>(alloc: Global, run: &mut R, out: &mut K) -> Result<End, SinkFault>
    ensures end { IfOk result (λ end. (R.coming run.old).end ≡ end) }
    ensures output { OnOk result (Gains (change K.Sink out.old out.new) (R.coming run.old).output) }
    ensures front { GainsFront (change K.Sink out.old out.new) (R.coming run.old).output }
    ensures counts { K.faults out.new ≡ count_after_write (K.faults out.old) result }
{
    let mut piece = Vec::with_capacity(alloc, PIECE)?;
    loop {
        match run.advance() {
            Ok(Moment::Going) => {}
            Ok(Moment::Wrote(byte)) => {
                piece.push(byte)?;
                if piece.len() >= PIECE {
                    write_all(out, piece.as_slice())?;
                    piece.clear();
                }
            }
            Ok(Moment::Over(end)) => {
                write_all(out, piece.as_slice())?;
                return Ok(end);
            }
            Err(NoMemory) => return Err(SinkFault::NoMemory),
        }
    }
}

/// Does a run to its end, writes its output and then the line of its end, which names `count` where the steps were used up.
/// Only a value is `Done`. A failing write of another end's line changes nothing.
pub fn tell_run<R: Run, O: Sink, E: Sink>(
    alloc: Global,
    run: &mut R,
    count: u64,
    out: &mut O,
    report: &mut E,
) -> Status
    ensures { Tells result (R.coming run.old) count (change O.Sink out.old out.new)
        (change E.Sink report.old report.new) }
{
    let end = match write_run(alloc, run, out) {
        Ok(end) => end,
        Err(SinkFault::NoMemory) => return no_memory(report),
        Err(SinkFault::Failed) => return refuse(
            report,
            b"ggvax: output failed\n",
            Status::WriteFault,
        ),
    };
    let Ok(line) = end_line(alloc, end, count) else {
        return no_memory(report);
    };
    match end_status(end) {
        Status::Done => match write_all(report, line.as_slice()) {
            Ok(()) => Status::Done,
            Err(SinkFault::NoMemory) => Status::NoMemory,
            Err(SinkFault::Failed) => Status::WriteFault,
        },
        status => refuse(report, line.as_slice(), status),
    }
}
