// Each call once, and a table of calls that fail.
ghost use Rattle.std.specs.Prelude.{◌≡◌, IfOk};

use crate::standard::{read_unbroken, write_unbroken};
use crate::{
    Failed, Folder, FolderFault, MemFile, MemFolder, MemSink, MemSource, Sink, SinkFault, Source,
    StdFolder, StdSink, StdSource,
};
use gg_base::{Bytes, Name};
use std::alloc::{AllocError, Global};
use std::fs;
use std::io::{self, ErrorKind, Read, Write};
use std::test::Fail;

// A file that a test writes and removes.
const SMALL: &str = "small.c";

fn file(alloc: Global, name: &[u8], bytes: &[u8]) -> Result<MemFile, AllocError> {
    Ok(MemFile {
        name: Name::from_vec(Vec::from_slice(alloc, name)?),
        bytes: Bytes::from_vec(Vec::from_slice(alloc, bytes)?),
    })
}

#[test]
fn reads_files_in_memory(rt: HostRuntime) -> Result<(), Fail> {
    let alloc = rt.alloc();
    let mut files = Vec::new(alloc);
    files.push(file(alloc, b"a", b"first")?)?;
    files.push(file(alloc, b"b", b"")?)?;
    files.push(file(alloc, b"a", b"second")?)?;
    let mut folder = MemFolder::new(alloc, files, vec![in alloc; 2, 5]?);
    let failed = Err(FolderFault::Failed);
    let rows = [
        ("a", 5, Ok(()), b"first".as_slice()),
        ("b", 0, Ok(()), b"".as_slice()),
        ("a", 5, failed, b"".as_slice()),
        ("a", 4, Err(FolderFault::TooLong), b"".as_slice()),
        ("c", 9, failed, b"".as_slice()),
        ("b", 9, failed, b"".as_slice()),
        ("a", 6, Ok(()), b"first".as_slice()),
    ];
    for (name, limit, answer, bytes) in rows {
        let mut into = Vec::new(alloc);
        assert_eq!(rt;
            folder.read_whole(name, limit, &mut into),
            answer,
            "{name} {limit}"
        );
        assert_eq!(rt; into.as_slice(), bytes, "{name} {limit}");
    }
    Ok(())
}

#[test]
fn reads_a_source_in_memory(rt: HostRuntime) -> Result<(), Fail> {
    let alloc = rt.alloc();
    let bytes = Vec::from_slice(alloc, b"abcdef")?;
    let mut source = MemSource::new(bytes, 4, vec![in alloc; 1]?);
    let rows = [
        (3, Ok(3), b"abc".as_slice()),
        (3, Err(Failed), b"...".as_slice()),
        (2, Ok(2), b"de".as_slice()),
        (2, Ok(1), b"f.".as_slice()),
        (1, Ok(0), b".".as_slice()),
    ];
    for (room, answer, bytes) in rows {
        let mut into = vec![in alloc; b'.'; room]?;
        assert!(rt; !into.is_empty());
        assert_eq!(rt; source.read(&mut into), answer, "{room}");
        assert_eq!(rt; into.as_slice(), bytes, "{room}");
    }
    Ok(())
}

#[test]
fn writes_a_sink_in_memory(rt: HostRuntime) -> Result<(), Fail> {
    let alloc = rt.alloc();
    let mut sink = MemSink::new(alloc, 4, vec![in alloc; 0, 2]?);
    let rows = [
        (b"abcdef".as_slice(), Err(SinkFault::Failed), b"".as_slice()),
        (b"abcdef".as_slice(), Ok(4), b"abcd".as_slice()),
        (b"ef".as_slice(), Err(SinkFault::Failed), b"abcd".as_slice()),
        (b"ef".as_slice(), Ok(2), b"abcdef".as_slice()),
    ];
    for (piece, answer, bytes) in rows {
        assert!(rt; !piece.is_empty());
        assert_eq!(rt; sink.write(piece), answer);
        assert_eq!(rt; sink.bytes(), bytes);
    }
    Ok(())
}

#[test]
fn reads_real_files(rt: HostRuntime) -> Result<(), Fail> {
    let alloc = rt.alloc();
    fs::write(&rt, SMALL, b"int main(){return 0;}")?;
    let mut folder = StdFolder::new(rt, alloc);
    let rows = [
        (SMALL, 21, Ok(()), b"int main(){return 0;}".as_slice()),
        (SMALL, 20, Err(FolderFault::TooLong), b"".as_slice()),
        ("none.c", 21, Err(FolderFault::Failed), b"".as_slice()),
        (".", 21, Err(FolderFault::Failed), b"".as_slice()),
    ];
    for (name, limit, answer, bytes) in rows {
        let mut into = Vec::new(alloc);
        assert_eq!(rt;
            folder.read_whole(name, limit, &mut into),
            answer,
            "{name} {limit}"
        );
        assert_eq!(rt; into.as_slice(), bytes, "{name} {limit}");
    }
    fs::remove_file(&rt, SMALL)?;
    Ok(())
}

#[test]
fn reaches_the_standard_streams(rt: HostRuntime) -> Result<(), Fail> {
    let mut source = StdSource::new(rt).ok().ok_or("no memory")?;
    let mut out = StdSink::out(rt).ok().ok_or("no memory")?;
    let mut report = StdSink::err(rt).ok().ok_or("no memory")?;
    let mut into = [0u8; 4];
    assert_eq!(rt; source.read(&mut into), Ok(0));
    assert_eq!(rt; out.write(b"\n"), Ok(1));
    assert_eq!(rt; report.write(b"\n"), Ok(1));
    Ok(())
}

// A stream whose first calls a signal breaks off, and whose next is answered; then it fails.
#[derive(Drop)]
struct BrokenOff {
    breaks: u32,
    answered: bool,
}

impl BrokenOff {
    fn next(&mut self) -> io::Result<usize>
        ensures { IfOk result (λ n. n ≡ 0) }
    {
        if self.breaks > 0 {
            self.breaks -= 1;
            return Err(io::Error::from(ErrorKind::Interrupted));
        }
        if self.answered {
            return Err(io::Error::from(ErrorKind::Other));
        }
        self.answered = true;
        Ok(0)
    }
}

impl Read for BrokenOff {
    fn read(&mut self, _buf: &mut [u8]) -> io::Result<usize> {
        self.next()
    }
}

impl Write for BrokenOff {
    fn write(&mut self, _buf: &[u8]) -> io::Result<usize> {
        self.next()
    }

    fn flush(&mut self) -> io::Result<()> {
        Ok(())
    }
}

#[test]
fn goes_on_behind_a_signal(rt: HostRuntime) -> Result<(), Fail> {
    let mut stream = BrokenOff {
        breaks: 3,
        answered: false,
    };
    assert_eq!(rt; read_unbroken(&mut stream, &mut [0; 2]).ok(), Some(0));
    assert_eq!(rt; read_unbroken(&mut stream, &mut [0; 2]).ok(), None);
    let mut stream = BrokenOff {
        breaks: 3,
        answered: false,
    };
    assert_eq!(rt; write_unbroken(&mut stream, b"ab").ok(), Some(0));
    assert_eq!(rt; write_unbroken(&mut stream, b"ab").ok(), None);
    Ok(())
}
