// The real folder, input and outputs, over std's files and streams. They tell no content.
ghost use Rattle.std.specs.Prelude.{◌≡◌, ◌<◌, ◌≤◌, length, None, [], IfOk, IsOkAnd};
ghost use Rattle.gg_outside.specs.Outside.{Untold};

use crate::{Failed, Folder, FolderFault, Sink, SinkFault, Source};
use gg_base::{Name, NoMemory};
use std::alloc::Global;
use std::fs::File;
use std::io::{self, ErrorKind, Read, Stderr, Stdin, Stdout, Write};
use std::marker::Model;

/// Files by their paths from the current folder.
#[derive(Drop)]
pub struct StdFolder {
    rt: HostRuntime,
    alloc: Global,
    failed: Vec<Name>,
}

impl Model for StdFolder {
    ghost use Rattle.std.specs.Prelude.{List, ℕ};

    ghost Value = { List (List ℕ) };

    ghost view = { λ f. f.failed.items };
}

impl StdFolder {
    /// The current folder. No reading has failed.
    pub fn new(rt: HostRuntime, alloc: Global) -> Self
        ensures { result ≡ [] }
    {
        StdFolder {
            rt,
            alloc,
            failed: Vec::new(alloc),
        }
    }
}

impl Folder for StdFolder {
    ghost holds = { λ _ _. Untold };

    ghost failed = { λ f. f };

    fn read_whole(
        &mut self,
        name: &str,
        limit: u64,
        into: &mut Vec<u8>,
    ) -> Result<(), FolderFault> {
        let noted = Name::from_vec(Vec::from_slice(self.alloc, name.as_bytes())?);
        self.failed.reserve(1)?;
        let read = read_file(&self.rt, name, limit, into);
        let fault = match read {
            Ok(()) if into.len() as u64 <= limit => return Ok(()),
            Ok(()) => FolderFault::TooLong,
            Err(e) if e.kind() == ErrorKind::OutOfMemory => FolderFault::NoMemory,
            Err(_) => {
                self.failed.push(noted)?;
                FolderFault::Failed
            }
        };
        into.clear();
        Err(fault)
    }
}

// A file's bytes, and no more than one beyond the limit.
fn read_file(rt: &HostRuntime, name: &str, limit: u64, into: &mut Vec<u8>) -> io::Result<()> {
    let file = File::open(rt, name)?;
    file.take(limit.saturating_add(1)).read_to_end(into)?;
    Ok(())
}

// Reads once, and again as long as a signal breaks the reading off.
pub(crate) fn read_unbroken<R: Read>(stream: &mut R, into: &mut [u8]) -> io::Result<usize>
    ensures { IfOk result (λ n. n ≤ length into.new) }
{
    for _ in 0..u64::MAX {
        match stream.read(into) {
            Err(e) if e.kind() == ErrorKind::Interrupted => {}
            read => return read,
        }
    }
    Err(io::Error::from(ErrorKind::Interrupted))
}

// Writes once, and again as long as a signal breaks the writing off.
pub(crate) fn write_unbroken<W: Write>(stream: &mut W, piece: &[u8]) -> io::Result<usize>
    ensures { IfOk result (λ n. n ≤ length piece.now) }
{
    for _ in 0..u64::MAX {
        match stream.write(piece) {
            Err(e) if e.kind() == ErrorKind::Interrupted => {}
            written => return written,
        }
    }
    Err(io::Error::from(ErrorKind::Interrupted))
}

/// Standard input. No more of it is taken than a call asks for.
#[derive(Drop)]
pub struct StdSource {
    stream: Stdin,
    faults: u64,
}

impl Model for StdSource {
    ghost use Rattle.std.specs.Prelude.{ℕ};

    ghost Value = { ℕ };

    ghost view = { λ s. s.faults };
}

impl StdSource {
    /// Standard input, of which no reading has failed. It needs no memory, so it is always `Ok`.
    pub fn new(rt: HostRuntime) -> Result<Self, NoMemory>
        ensures { IsOkAnd result (λ source. source ≡ 0) }
    {
        Ok(StdSource {
            stream: rt.stdin(),
            faults: 0,
        })
    }
}

impl Source for StdSource {
    ghost left = { λ _. None };

    ghost faults = { λ s. s };

    fn read(&mut self, into: &mut [u8]) -> Result<usize, Failed> {
        match read_unbroken(&mut self.stream, into) {
            Ok(n) => Ok(n),
            Err(_) => {
                self.faults = self.faults.saturating_add(1);
                Err(Failed)
            }
        }
    }
}

// The stream that a sink writes to.
#[derive(Clone, Copy)]
enum Stream {
    Output(Stdout),
    Errors(Stderr),
}

/// Standard output or standard error.
#[derive(Drop)]
pub struct StdSink {
    stream: Stream,
    faults: u64,
}

impl Model for StdSink {
    ghost use Rattle.std.specs.Prelude.{ℕ};

    ghost Value = { ℕ };

    ghost view = { λ s. s.faults };
}

impl StdSink {
    /// Standard output, to which no writing has failed. It needs no memory, so it is always `Ok`.
    pub fn out(rt: HostRuntime) -> Result<Self, NoMemory>
        ensures { IsOkAnd result (λ sink. sink ≡ 0) }
    {
        Ok(StdSink {
            stream: Stream::Output(rt.stdout()),
            faults: 0,
        })
    }

    /// Standard error, to which no writing has failed. It needs no memory, so it is always `Ok`.
    pub fn err(rt: HostRuntime) -> Result<Self, NoMemory>
        ensures { IsOkAnd result (λ sink. sink ≡ 0) }
    {
        Ok(StdSink {
            stream: Stream::Errors(rt.stderr()),
            faults: 0,
        })
    }
}

impl Sink for StdSink {
    ghost told = { λ _. None };

    ghost faults = { λ s. s };

    fn write(&mut self, piece: &[u8]) -> Result<usize, SinkFault> {
        let written = match &mut self.stream {
            Stream::Output(stream) => write_unbroken(stream, piece),
            Stream::Errors(stream) => write_unbroken(stream, piece),
        };
        match written {
            Ok(0) | Err(_) => {
                self.faults = self.faults.saturating_add(1);
                Err(SinkFault::Failed)
            }
            Ok(n) => Ok(n),
        }
    }
}
