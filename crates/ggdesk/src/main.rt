// The program `ggdesk`: what the parts of the compiler say of a file, by words, or of the rows of a script. `ggdesk` reads a script from
// its input: a line `== SUBJECT` names the subject of the rows behind it. `ggdesk SUBJECT` reads rows of that subject alone. All other
// words are a command.
#![tactic(auto)]

mod script;
mod subject;

use cmd_session::{InputFault, Status, read_all, refuse};
use desk_commands::answer_words;
use gg_base::NoMemory;
use gg_outside::{StdFolder, StdSink, StdSource};
use script::answer_script;
use std::alloc::AllocError;
use std::env;
use std::process::ExitCode;
use subject::Subject;

/// The most bytes of a script.
const SCRIPT_LIMIT: usize = 0x400_0000;

// The words behind the program's name; none where the system gives none.
fn command_words(rt: HostRuntime) -> Result<Vec<String>, AllocError> {
    match env::args(&rt) {
        Ok(args) => args.skip(1).collect(rt.alloc()),
        Err(_) => Ok(Vec::new(rt.alloc())),
    }
}

// Answers the input's script, whose first rows are of the named subject.
fn answer(rt: HostRuntime, subject: &str) -> Result<Status, NoMemory> {
    let alloc = rt.alloc();
    let mut report = StdSink::err(rt)?;
    let mut input = StdSource::new(rt)?;
    let bytes = match read_all(alloc, &mut input, SCRIPT_LIMIT) {
        Ok(bytes) => bytes,
        Err(InputFault::NoMemory) => return Err(NoMemory),
        Err(InputFault::TooLong) => {
            return Ok(refuse(
                &mut report,
                b"ggdesk: the input is too long\n",
                Status::TooLong,
            ));
        }
        Err(InputFault::Failed) => {
            return Ok(refuse(
                &mut report,
                b"ggdesk: the input was not read\n",
                Status::InputFault,
            ));
        }
    };
    let script = String::from_utf8_lossy(alloc, bytes.as_slice())?;
    let mut out = StdSink::out(rt)?;
    answer_script(alloc, subject, &script, &mut out)
}

// Answers a command.
fn answer_command(rt: HostRuntime, words: &[String]) -> Result<Status, NoMemory> {
    let alloc = rt.alloc();
    let mut folder = StdFolder::new(rt, alloc);
    let mut input = StdSource::new(rt)?;
    let mut out = StdSink::out(rt)?;
    let mut report = StdSink::err(rt)?;
    answer_words(alloc, words, &mut folder, &mut input, &mut out, &mut report)
}

fn run(rt: HostRuntime) -> Result<Status, NoMemory> {
    let words = command_words(rt)?;
    match words.as_slice() {
        [] => answer(rt, ""),
        [subject] if Subject::named(subject).is_some() => answer(rt, subject.as_str()),
        words => answer_command(rt, words),
    }
}

fn main(rt: HostRuntime) -> ExitCode {
    let status = run(rt).unwrap_or(Status::NoMemory);
    ExitCode::from(status as u8)
}
