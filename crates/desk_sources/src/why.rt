// Why a source is refused.
use crate::left_out::{LeftOut, Words};
use crate::pieces::{Piece, bytes_of, pieces};
use c_typed::{Program, SourceFault, read_source};
use desk_page::advice::{FRAMES, SOURCES};
use desk_page::{put_advice, put_place};
use gg_base::limits::{NEED_LIMIT, SOURCE_LIMIT};
use gg_base::{NoMemory, Place};
use std::alloc::Global;

// The place of an offset.
fn place_of(source: &[u8], offset: usize) -> Place {
    let mut place = Place { line: 1, column: 1 };
    for byte in source.get(..offset).unwrap_or(source) {
        if *byte == b'\n' {
            place.line = place.line.saturating_add(1);
            place.column = 1;
        } else {
            place.column = place.column.saturating_add(1);
        }
    }
    place
}

// A line that names a place, and the place under its line.
fn put_head(
    alloc: Global,
    name: &str,
    source: &[u8],
    place: Place,
    said: &str,
    told: &mut String,
) -> Result<(), NoMemory> {
    writeln!(told, "{name}:{}:{}: {said}", place.line, place.column)?;
    put_place(alloc, told, source, place.line, place.column)
}

// What is left out at a word or mark, and the way round it.
fn put_left_out(
    alloc: Global,
    name: &str,
    source: &[u8],
    at: usize,
    left_out: LeftOut,
    told: &mut String,
) -> Result<(), NoMemory> {
    let said = format!(in alloc; "{} is left out of this C", left_out.0)?;
    put_head(alloc, name, source, place_of(source, at), &said, told)?;
    writeln!(told, "  way round: {}", left_out.1)?;
    Ok(())
}

// The number of the word or mark that a place stands at, or of the next one.
fn piece_at(pieces: &[Piece], source: &[u8], place: Place) -> usize {
    pieces.partition_point(|piece| {
        let start = place_of(source, piece.start);
        start.line < place.line || (start.line == place.line && start.column < place.column)
    })
}

// What is left out at the first fault: at the word or mark there, or at the one in front of it.
fn put_at_fault(
    alloc: Global,
    name: &str,
    words: Words,
    place: Place,
    told: &mut String,
) -> Result<(), NoMemory> {
    let number = piece_at(words.pieces, words.source, place);
    if let Some(left_out) = words.left_out_at_fault(number) {
        if let Some(piece) = words.pieces.get(number) {
            put_left_out(alloc, name, words.source, piece.start, left_out, told)?;
        }
    }
    Ok(())
}

// All that is left out, each kind once, where it first stands.
fn put_all_left_out(
    alloc: Global,
    name: &str,
    words: Words,
    told: &mut String,
) -> Result<(), NoMemory> {
    let mut said = Vec::new(alloc);
    for (number, piece) in words.pieces.iter().enumerate() {
        if let Some(left_out) = words.left_out(number) {
            if !said.contains(&left_out.0) {
                said.push(left_out.0)?;
                put_left_out(alloc, name, words.source, piece.start, left_out, told)?;
            }
        }
    }
    Ok(())
}

// A source that is refused: its first fault, and what it has of C that is left out.
fn put_fault(
    alloc: Global,
    name: &str,
    source: &[u8],
    place: Place,
    kind: &str,
    told: &mut String,
) -> Result<(), NoMemory> {
    put_head(alloc, name, source, place, kind, told)?;
    put_advice(told, &SOURCES, kind)?;
    let pieces = pieces(alloc, source)?;
    let words = Words {
        source,
        pieces: &pieces,
    };
    put_at_fault(alloc, name, words, place, told)?;
    put_all_left_out(alloc, name, words, told)
}

// The offset of a function's name in its definition: the last time that it stands outside of all braces.
fn definition_of(alloc: Global, source: &[u8], name: &[u8]) -> Result<usize, NoMemory> {
    let mut depth = 0_usize;
    let mut found = 0;
    for piece in &pieces(alloc, source)? {
        let bytes = bytes_of(source, *piece);
        if bytes == b"{".as_slice() {
            depth = depth.saturating_add(1);
        } else if bytes == b"}".as_slice() {
            depth = depth.saturating_sub(1);
        } else if depth == 0 && bytes == name {
            found = piece.start;
        }
    }
    Ok(found)
}

// A source that is read: whether each function fits its frame.
fn put_needs(
    alloc: Global,
    name: &str,
    source: &[u8],
    program: &Program,
    told: &mut String,
) -> Result<(), NoMemory> {
    let mut fits = true;
    for routine in program.plain().routines.as_slice() {
        if routine.need > NEED_LIMIT {
            fits = false;
            let function = String::from_utf8_lossy(alloc, routine.name.as_slice())?;
            let said = format!(in alloc; "{function} needs {} frame words", routine.need)?;
            let at = definition_of(alloc, source, routine.name.as_slice())?;
            put_head(alloc, name, source, place_of(source, at), &said, told)?;
            put_advice(told, &FRAMES, "frame words")?;
        }
    }
    if fits {
        writeln!(told, "{name}: a C source, and nothing is wrong with it")?;
    }
    Ok(())
}

/// Adds why a source is refused: its first fault under its line, with what is wrong and the way out, and each thing in it that this C
/// leaves out; or which functions need too much of their frames; or that nothing is wrong with it.
pub fn put_why(
    alloc: Global,
    name: &str,
    source: &[u8],
    told: &mut String,
) -> Result<(), NoMemory> {
    if source.len() as u64 > SOURCE_LIMIT {
        writeln!(
            told,
            "{name} is too long: a source has at most {SOURCE_LIMIT} bytes"
        )?;
        return Ok(());
    }
    match read_source(alloc, source) {
        Ok(program) => put_needs(alloc, name, source, &program, told),
        Err(SourceFault::NoMemory) => Err(NoMemory),
        Err(SourceFault::At { place, kind }) => {
            let kind = format!(in alloc; "{kind}")?;
            put_fault(alloc, name, source, place, &kind, told)
        }
    }
}
