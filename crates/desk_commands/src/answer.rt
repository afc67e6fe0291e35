// A call of the desk.
use crate::ask::ask_of;
use crate::files::Trouble;
use crate::help::{put_usage, put_wrong_call};
use crate::tell::tell;
use cmd_session::{Status, refuse, write_all};
use gg_base::NoMemory;
use gg_outside::{Folder, Sink, SinkFault, Source};
use std::alloc::Global;

// The words are no command's.
fn refuse_words<E: Sink>(
    alloc: Global,
    words: &[String],
    report: &mut E,
) -> Result<Status, NoMemory> {
    let mut usage = String::new(alloc);
    if let Some(name) = words.first() {
        put_wrong_call(&mut usage, name)?;
    }
    put_usage(&mut usage)?;
    Ok(refuse(report, usage.as_bytes(), Status::Usage))
}

fn write_told<O: Sink>(out: &mut O, told: &str) -> Result<Status, NoMemory> {
    match write_all(out, told.as_bytes()) {
        Ok(()) => Ok(Status::Done),
        Err(SinkFault::Failed) => Ok(Status::WriteFault),
        Err(SinkFault::NoMemory) => Err(NoMemory),
    }
}

/// Answers the words: to `out` what they ask for; or to `report` why there is no answer. The status is that of the fault, where there is
/// one.
pub fn answer_words<F: Folder, I: Source, O: Sink, E: Sink>(
    alloc: Global,
    words: &[String],
    folder: &mut F,
    input: &mut I,
    out: &mut O,
    report: &mut E,
) -> Result<Status, NoMemory> {
    let Some(ask) = ask_of(words) else {
        return refuse_words(alloc, words, report);
    };
    let mut told = String::new(alloc);
    match tell(alloc, ask, folder, input, &mut told) {
        Ok(()) => write_told(out, &told),
        Err(Trouble::NoMemory) => Err(NoMemory),
        Err(Trouble::Refused(status, line)) => Ok(refuse(report, line.as_bytes(), status)),
    }
}
