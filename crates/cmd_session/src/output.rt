// Writing to a sink until all is written or a write fails.
ghost use Rattle.std.specs.Prelude.{◌≡◌, ℕ, List, OnOk, IfOk};
ghost use Rattle.gg_outside.specs.Outside.{count_after_write};
ghost use Rattle.cmd_session.specs.Writing.{change, Gains, GainsFront, RisesAtMostOnce};
ghost use Rattle.cmd_session.specs.Telling.{IsRefused};

use crate::status::Status;
use gg_base::{NoMemory, Text};
use gg_outside::{Sink, SinkFault};

/// Writes all of the bytes, in as many calls as the sink wants, and nothing behind a call that failed.
pub fn write_all<K: Sink>(sink: &mut K, bytes: &[u8]) -> Result<(), SinkFault>
    ensures all { OnOk result (Gains (change K.Sink sink.old sink.new) bytes.now) }
    ensures front { GainsFront (change K.Sink sink.old sink.new) bytes.now }
    ensures counts { K.faults sink.new ≡ count_after_write (K.faults sink.old) result }
{
    let mut rest = bytes;
    while !rest.is_empty() {
        let n = sink.write(rest)?;
        rest = &rest[n..];
    }
    Ok(())
}

/// Writes the line of a refusal and answers its status, which a failing write doesn't change; want of memory does.
pub fn refuse<E: Sink>(report: &mut E, line: &[u8], status: Status) -> Status
    ensures { IsRefused status line.now result (change E.Sink report.old report.new) }
{
    match write_all(report, line) {
        Ok(()) | Err(SinkFault::Failed) => status,
        Err(SinkFault::NoMemory) => Status::NoMemory,
    }
}

/// The same with a line that is made in memory.
pub fn refuse_with<E: Sink>(report: &mut E, line: Result<Text, NoMemory>, status: Status) -> Status
    ensures { (wanted : List ℕ) → IfOk line (λ text. text ≡ wanted)
        → IsRefused status wanted result (change E.Sink report.old report.new) }
{
    match line {
        Ok(line) => refuse(report, line.as_slice(), status),
        Err(NoMemory) => no_memory(report),
    }
}

/// Writes the line of a want of memory, as far as can be.
pub fn no_memory<E: Sink>(report: &mut E) -> Status
    ensures status { result ≡ Status.NoMemory }
    ensures once { RisesAtMostOnce (change E.Sink report.old report.new) }
{
    let _ = write_all(report, b"ggvax: no memory\n");
    Status::NoMemory
}
