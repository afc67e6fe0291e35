// Files that are cut at each byte, and outputs that fail behind each byte.
use crate::world::{World, called};
use cmd_files::write_out;
use cmd_session::Status;
use gg_outside::MemSink;
use std::alloc::{AllocError, Global};

// What is told of the fronts so far, and what the last of them left behind.
#[derive(Drop)]
struct Fronts {
    told: String,
    last: String,
}

impl Fronts {
    // Tells what a front of this length leaves behind, where that is not what the last one left.
    fn tell(&mut self, length: usize, left: String) -> Result<(), AllocError> {
        if left.as_str() != self.last.as_str() {
            let gap = if self.told.is_empty() { "" } else { "  " };
            write!(self.told, "{gap}{length}: {left}")?;
            self.last = left;
        }
        Ok(())
    }
}

/// What the whole program leaves behind of each front of a file, from the empty one on. A front is told by its length, and stands for the
/// longer ones too up to the next that is told.
pub fn fronts_of(
    alloc: Global,
    words: &str,
    file: &str,
    input: &str,
    marks: &str,
) -> Result<String, AllocError> {
    let mut fronts = Fronts {
        told: String::new(alloc),
        last: String::new(alloc),
    };
    let mut front = String::new(alloc);
    for letter in file.chars() {
        let left = called(alloc, words, &front, input, World::of(alloc, marks)?)?;
        fronts.tell(front.len(), left)?;
        front.push(letter)?;
    }
    let left = called(alloc, words, &front, input, World::of(alloc, marks)?)?;
    fronts.tell(front.len(), left)?;
    Ok(fronts.told)
}

// Whether a text is written byte by byte up to the call of this number, which fails, with status 5.
fn stops(alloc: Global, text: &str, call: usize) -> Result<bool, AllocError> {
    let mut failing = Vec::new(alloc);
    failing.push(call as u64)?;
    let mut out = MemSink::new(alloc, 1, failing);
    let mut report = MemSink::new(alloc, 1, Vec::new(alloc));
    let written = write_out(&mut out, text.as_bytes(), &mut report);
    let front = out.bytes();
    Ok(
        matches!(written, Err(Status::WriteFault))
            && front.len() == call
            && text.as_bytes().starts_with(front)
            && report.bytes() == b"ggvax: output failed\n".as_slice(),
    )
}

/// How many of the calls with which a text is written byte by byte, each failing in turn, leave status 5 and the bytes before them.
pub fn stops_of(alloc: Global, text: &str) -> Result<String, AllocError> {
    let mut stopped = 0u32;
    for call in 0..text.len() {
        if stops(alloc, text, call)? {
            stopped = stopped.saturating_add(1);
        }
    }
    format!(in alloc; "5 at {stopped} of {} calls", text.len())
}
