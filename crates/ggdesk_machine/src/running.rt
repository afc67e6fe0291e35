// Runs of texts.
use gg_base::{End, Name};
use std::alloc::{AllocError, Global};
use vax_machine::{LoadFault, load, run_for};
use vax_reader::read_code;

/// What became of a text.
#[derive(Drop)]
pub enum Outcome {
    /// It was run: how its run stands, and what it wrote.
    Ran(End, Vec<u8>),
    /// It can't be run, for this reason.
    Refused(String),
}

fn text_of(alloc: Global, lines: &str) -> Result<String, AllocError> {
    let mut text = String::new(alloc);
    for line in lines.split('|') {
        if !line.ends_with(':') {
            text.push('\t')?;
        }
        text.extend(line.chars().map(|c| if c == ' ' { '\t' } else { c }))?;
        text.push('\n')?;
    }
    Ok(text)
}

fn named(alloc: Global, name: &Name, what: &str) -> Result<String, AllocError> {
    let name = String::from_utf8_lossy(alloc, name.as_slice())?;
    format!(in alloc; "label {name} {what}")
}

fn fault_text(alloc: Global, fault: &LoadFault) -> Result<String, AllocError> {
    match fault {
        LoadFault::NoMemory => String::from_str(alloc, "no memory"),
        LoadFault::DoubleLabel(name) => named(alloc, name, "twice"),
        LoadFault::UndefinedLabel(name) => named(alloc, name, "undefined"),
        LoadFault::NoMain => String::from_str(alloc, "no _main"),
        LoadFault::TooLarge => String::from_str(alloc, "too large"),
    }
}

/// What becomes of a text that is run for at most so many instructions.
pub fn run(alloc: Global, lines: &str, count: u64, input: &str) -> Result<Outcome, AllocError> {
    let text = text_of(alloc, lines)?;
    let Ok(code) = read_code(alloc, text.as_bytes()) else {
        return Ok(Outcome::Refused(String::from_str(alloc, "no code")?));
    };
    let mut machine = match load(alloc, &code, input.as_bytes()) {
        Ok(machine) => machine,
        Err(fault) => return Ok(Outcome::Refused(fault_text(alloc, &fault)?)),
    };
    let mut out = Vec::new(alloc);
    match run_for(&mut machine, count, &mut out) {
        Ok(end) => Ok(Outcome::Ran(end, out)),
        Err(_) => Ok(Outcome::Refused(String::from_str(alloc, "no memory")?)),
    }
}

fn end_text(alloc: Global, end: End) -> Result<String, AllocError> {
    match end {
        End::Ended(value) => format!(in alloc; "ended {}", value.cast_signed()),
        End::Trapped => String::from_str(alloc, "trapped"),
        End::Broken(kind) => format!(in alloc; "broken {kind:?}"),
        End::Spent => String::from_str(alloc, "spent"),
        End::Wild | End::Deep => String::from_str(alloc, "no end of a code"),
    }
}

/// What becomes of such a text, as text.
pub fn told_of(alloc: Global, lines: &str, count: u64, input: &str) -> Result<String, AllocError> {
    match run(alloc, lines, count, input)? {
        Outcome::Ran(end, out) => {
            let out = String::from_utf8_lossy(alloc, out.as_slice())?;
            let end = end_text(alloc, end)?;
            format!(in alloc; "{out}|{end}")
        }
        Outcome::Refused(why) => Ok(why),
    }
}
