// The program `ggvax`: from a C source to VAX assembly text and its run, and runs of such texts.
#![tactic(auto)]

use cmd_session::Status;
use cmd_top::ggvax;
use gg_base::NoMemory;
use gg_outside::{StdFolder, StdSink, StdSource};
use std::env;
use std::io::ErrorKind;
use std::process::ExitCode;
use vax_codes::{JumpChain, NeedlessTest};
use vax_passes::{DeadTail, NextJump, Pass};

// The words behind the program's name; none where the system gives none, or one of them is no UTF-8.
fn command_words(rt: HostRuntime) -> Result<Vec<String>, NoMemory> {
    match env::args(&rt) {
        Ok(args) => Ok(args.skip(1).collect(rt.alloc())?),
        Err(e) if e.kind() == ErrorKind::OutOfMemory => Err(NoMemory),
        Err(_) => Ok(Vec::new(rt.alloc())),
    }
}

fn run(rt: HostRuntime) -> Result<Status, NoMemory> {
    let alloc = rt.alloc();
    let words = command_words(rt)?;
    let mut folder = StdFolder::new(rt, alloc);
    let mut input = StdSource::new(rt)?;
    let mut out = StdSink::out(rt)?;
    let mut report = StdSink::err(rt)?;
    let mut passes: Vec<Box<dyn Pass>> = Vec::new(alloc);
    passes.push(Box::new(alloc, JumpChain::new(alloc))?)?;
    passes.push(Box::new(alloc, NextJump::new(alloc))?)?;
    passes.push(Box::new(alloc, DeadTail::new(alloc))?)?;
    passes.push(Box::new(alloc, NeedlessTest::new(alloc))?)?;
    Ok(ggvax(
        alloc,
        words.as_slice(),
        &mut folder,
        &mut input,
        &mut out,
        &mut report,
        &mut passes,
    ))
}

fn main(rt: HostRuntime) -> ExitCode {
    let status = run(rt).unwrap_or(Status::NoMemory);
    ExitCode::from(status as u8)
}
