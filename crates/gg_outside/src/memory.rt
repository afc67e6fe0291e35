// A folder, a source and a sink in memory, which fail at the calls whose numbers they are given.
ghost use Rattle.std.specs.Prelude.{◌≡◌, ◌<◌, ◌≤◌, ℕ, List, [], ◌++◌, length, drop, OnOk, OnErr, IfOk, IfSome, IfNone, Some};
ghost use Rattle.gg_outside.specs.Outside.{Missing, Stored, Reads, Takes, HandsOver, failed_after, count_after_read};
ghost use Rattle.gg_outside.specs.Outside.{count_after_write, next_count};
ghost use Rattle.gg_outside.specs.Memory.{content_of, file_given, AnswersFile, read_given, source_after, write_given, AnswersWrite};
ghost use Rattle.gg_outside.specs.Memory.{sink_after};

use crate::{Failed, Folder, FolderFault, Sink, SinkFault, Source};
use gg_base::{Bytes, Name};
use std::alloc::Global;
use std::marker::Model;

/// A file in memory.
#[derive(Drop)]
pub struct MemFile {
    pub name: Name,
    pub bytes: Bytes,
}

/// A folder in memory. Of two files with one name the first counts.
#[derive(Drop)]
pub struct MemFolder {
    alloc: Global,
    files: Vec<MemFile>,
    failing: Vec<u64>,
    calls: u64,
    failed: Vec<Name>,
}

impl Model for MemFolder {
    ghost use Rattle.gg_outside.specs.Memory.{FolderInMemory};

    ghost Value = { FolderInMemory };

    ghost view = { λ f. record { files = f.files.items; failing = f.failing.items; calls = f.calls; failed = f.failed.items } };
}

impl MemFolder {
    /// A folder of these files. The calls with these numbers fail, counted from 0.
    pub fn new(alloc: Global, files: Vec<MemFile>, failing: Vec<u64>) -> Self
        ensures { result ≡ record { files = files.items; failing = failing.items; calls = 0; failed = [] } }
    {
        MemFolder {
            alloc,
            files,
            failing,
            calls: 0,
            failed: Vec::new(alloc),
        }
    }
}

/// The bytes of the first file of that name.
fn find_file<'a>(files: &'a [MemFile], name: &[u8]) -> Option<&'a [u8]>
    ensures found { IfSome result (λ bytes. content_of files.now name.now ≡ Stored bytes.now) }
    ensures missing { IfNone result (content_of files.now name.now ≡ Missing) }
{
    let file = files.iter().find(|file| file.name.as_slice() == name)?;
    Some(file.bytes.as_slice())
}

impl Folder for MemFolder {
    ghost holds = { λ f. content_of f.files };

    ghost failed = { λ f. f.failed };

    fn read_whole(&mut self, name: &str, limit: u64, into: &mut Vec<u8>) -> Result<(), FolderFault>
        requires { into.old.items ≡ [] }
        ensures within { OnOk result (length into.new.items ≤ limit) }
        ensures told { Reads (content_of self.old.files name.now) limit result into.new.items }
        ensures refused { OnErr result (into.new.items ≡ []) }
        ensures keeps { (n : List ℕ) → content_of self.new.files n ≡ content_of self.old.files n }
        ensures names { self.new.failed ≡ failed_after self.old.failed name.now result }

        // Which calls fail, and what each leaves behind.
        ensures given { AnswersFile result into.new.items (file_given self.old name.now limit) }
        ensures after { self.new ≡ record self.old {
          calls = next_count self.old.calls;
          failed =
              failed_after self.old.failed name.now result;
        } }
    {
        let call = self.calls;
        self.calls = call.saturating_add(1);
        let found = if self.failing.contains(&call) {
            None
        } else {
            find_file(&self.files, name.as_bytes())
        };
        let Some(bytes) = found else {
            let name = Name::from_vec(Vec::from_slice(self.alloc, name.as_bytes())?);
            self.failed.push(name)?;
            return Err(FolderFault::Failed);
        };
        if bytes.len() as u64 > limit {
            return Err(FolderFault::TooLong);
        }
        into.extend_from_slice(bytes)?;
        Ok(())
    }
}

/// An input in memory.
#[derive(Drop)]
pub struct MemSource {
    bytes: Vec<u8>,
    place: usize,
    most: usize,
    failing: Vec<u64>,
    calls: u64,
    faults: u64,
}

impl Model for MemSource {
    ghost use Rattle.std.specs.Prelude.{◌<◌, ◌≤◌, drop, length};
    ghost use Rattle.gg_outside.specs.Memory.{SourceInMemory};

    ghost Value = { SourceInMemory };

    ghost view = { λ s. record {
      left = drop s.place s.bytes.items;
      most = s.most;
      failing = s.failing.items;
      calls = s.calls;
      faults = s.faults;
    } };

    ghost invariant = { λ s. (0 < s.most) × (s.place ≤ length s.bytes.items) };
}

impl MemSource {
    /// An input of these bytes, which gives at most `most` of them in one call, and as many as it can.
    /// The calls with these numbers fail, counted from 0.
    pub fn new(bytes: Vec<u8>, most: usize, failing: Vec<u64>) -> Self
        requires { 0 < most }
        ensures { result ≡ record { left = bytes.items; most = most; failing = failing.items; calls = 0; faults = 0 } }
    {
        MemSource {
            bytes,
            place: 0,
            most,
            failing,
            calls: 0,
            faults: 0,
        }
    }
}

impl Source for MemSource {
    ghost left = { λ s. Some s.left };

    ghost faults = { λ s. s.faults };

    fn read(&mut self, into: &mut [u8]) -> Result<usize, Failed>
        requires { 0 < length into.old }
        ensures within { IfOk result (λ n. n ≤ length into.new) }
        ensures told { HandsOver (Some self.old.left) (Some self.new.left) result into.new }
        ensures counts { self.new.faults ≡ count_after_read self.old.faults result }

        // Which calls fail, how many bytes the others move, and what each leaves behind.
        ensures given { result ≡ read_given self.old (length into.old) }
        ensures after { self.new ≡ source_after self.old result }
    {
        let call = self.calls;
        self.calls = call.saturating_add(1);
        if self.failing.contains(&call) {
            self.faults = self.faults.saturating_add(1);
            return Err(Failed);
        }
        let left = &self.bytes[self.place..];
        let n = into.len().min(self.most).min(left.len());
        into[..n].copy_from_slice(&left[..n]);
        self.place += n;
        Ok(n)
    }
}

/// An output in memory.
#[derive(Drop)]
pub struct MemSink {
    bytes: Vec<u8>,
    most: usize,
    failing: Vec<u64>,
    calls: u64,
    faults: u64,
}

impl Model for MemSink {
    ghost use Rattle.std.specs.Prelude.{◌<◌};
    ghost use Rattle.gg_outside.specs.Memory.{SinkInMemory};

    ghost Value = { SinkInMemory };

    ghost view = { λ s. record { bytes = s.bytes.items; most = s.most; failing = s.failing.items; calls = s.calls; faults = s.faults } };

    ghost invariant = { λ s. 0 < s.most };
}

impl MemSink {
    /// An empty output, which takes at most `most` bytes of one call, and as many as it can.
    /// The calls with these numbers fail, counted from 0.
    pub fn new(alloc: Global, most: usize, failing: Vec<u64>) -> Self
        requires { 0 < most }
        ensures { result ≡ record { bytes = []; most = most; failing = failing.items; calls = 0; faults = 0 } }
    {
        MemSink {
            bytes: Vec::new(alloc),
            most,
            failing,
            calls: 0,
            faults: 0,
        }
    }

    /// The bytes that it holds.
    pub fn bytes(&self) -> &[u8]
        ensures { result.now ≡ self.now.bytes }
    {
        &self.bytes
    }
}

impl Sink for MemSink {
    ghost told = { λ s. Some s.bytes };

    ghost faults = { λ s. s.faults };

    fn write(&mut self, piece: &[u8]) -> Result<usize, SinkFault>
        requires { 0 < length piece.now }
        ensures some { IfOk result (λ n. 0 < n) }
        ensures within { IfOk result (λ n. n ≤ length piece.now) }
        ensures takes { Takes (Some self.old.bytes) (Some self.new.bytes) result piece.now }
        ensures counts { self.new.faults ≡ count_after_write self.old.faults result }

        // Which calls fail, how many bytes the others take, and what each leaves behind.
        ensures given { AnswersWrite result (write_given self.old (length piece.now)) }
        ensures after { self.new ≡ sink_after self.old piece.now result }
    {
        let call = self.calls;
        self.calls = call.saturating_add(1);
        if self.failing.contains(&call) {
            self.faults = self.faults.saturating_add(1);
            return Err(SinkFault::Failed);
        }
        let n = piece.len().min(self.most);
        self.bytes.extend_from_slice(&piece[..n])?;
        Ok(n)
    }
}
