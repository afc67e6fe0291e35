// Rows about L32: what texts come to when they are read, loaded and run.
#![tactic(auto)]

use gg_base::End;
use l32_machine::{Load32Fault, load32, run32_for};
use l32_reader::{Asm32Fault, Asm32Kind, read32};
use std::alloc::Global;

/// What a text comes to.
#[derive(Clone, Copy, Debug, PartialEq, Eq)]
pub enum Answer {
    NoMemory,
    /// Its first wrong line, counted from 1, and the kind.
    Line(u64, Asm32Kind),
    DoubleLabel,
    UndefinedLabel,
    NoMain,
    TooLarge,
    /// So its run stands after the steps that it was given.
    Run(End),
}

/// What a text comes to with no input, after at most `count` steps; what it writes goes to the end of `out`.
pub fn run_text(alloc: Global, text: &[u8], count: u64, out: &mut Vec<u8>) -> Answer {
    let code = match read32(alloc, text) {
        Ok(code) => code,
        Err(Asm32Fault::NoMemory) => return Answer::NoMemory,
        Err(Asm32Fault::Line { line, kind }) => return Answer::Line(line, kind),
    };
    let mut machine = match load32(alloc, &code, b"") {
        Ok(machine) => machine,
        Err(Load32Fault::NoMemory) => return Answer::NoMemory,
        Err(Load32Fault::DoubleLabel(_)) => return Answer::DoubleLabel,
        Err(Load32Fault::UndefinedLabel(_)) => return Answer::UndefinedLabel,
        Err(Load32Fault::NoMain) => return Answer::NoMain,
        Err(Load32Fault::TooLarge) => return Answer::TooLarge,
    };
    match run32_for(&mut machine, count, out) {
        Ok(end) => Answer::Run(end),
        Err(_) => Answer::NoMemory,
    }
}

#[cfg(test)]
mod tests;
