// The words of a source and its single marks, also of a source whose tokens are refused.
use std::alloc::{AllocError, Global};

/// Where a word or a mark stands: from its first byte up to before the last.
#[derive(Clone, Copy, Debug, PartialEq, Eq)]
pub struct Piece {
    pub start: usize,
    pub end: usize,
}

// What stands at a byte.
#[derive(Clone, Copy, PartialEq, Eq)]
enum Inside {
    // Between pieces.
    Gap,
    // A word that began there.
    Word(usize),
    // Behind a slash.
    Slash,
    // A comment up to the line's end.
    Line,
    // A comment up to a star and a slash, and behind a star in it.
    Comment,
    Star,
    // A literal up to this mark, and behind a backslash in it.
    Literal(u8),
    Escape(u8),
}

fn is_letter(byte: u8) -> bool {
    byte.is_ascii_alphanumeric() || byte == b'_'
}

// What comes behind a byte that no word, comment or literal holds.
fn opened(byte: u8, at: usize) -> Inside {
    match byte {
        b'/' => Inside::Slash,
        b'"' | b'\'' => Inside::Literal(byte),
        _ => {
            if is_letter(byte) {
                Inside::Word(at)
            } else {
                Inside::Gap
            }
        }
    }
}

// What comes behind a byte in a comment or a literal.
fn closed(inside: Inside, byte: u8) -> Inside {
    match (inside, byte) {
        (Inside::Line, b'\n') => Inside::Gap,
        (Inside::Comment | Inside::Star, b'*') => Inside::Star,
        (Inside::Star, b'/') => Inside::Gap,
        (Inside::Star, _) => Inside::Comment,
        (Inside::Literal(mark), b'\\') => Inside::Escape(mark),
        (Inside::Literal(_), b'\n') => Inside::Gap,
        (Inside::Literal(mark), _) => if byte == mark { Inside::Gap } else { inside },
        (Inside::Escape(mark), _) => Inside::Literal(mark),
        _ => inside,
    }
}

// What comes behind a byte.
fn behind(inside: Inside, byte: u8, at: usize) -> Inside {
    match inside {
        Inside::Gap => opened(byte, at),
        Inside::Word(_) => {
            if is_letter(byte) {
                inside
            } else {
                opened(byte, at)
            }
        }
        Inside::Slash => match byte {
            b'/' => Inside::Line,
            b'*' => Inside::Comment,
            _ => opened(byte, at),
        },
        _ => closed(inside, byte),
    }
}

// Whether a byte is a mark by itself: no space, and no part of a word, a comment or a literal.
fn is_mark(before: Inside, behind: Inside, byte: u8) -> bool {
    matches!(before, Inside::Gap | Inside::Word(_) | Inside::Slash)
        && behind == Inside::Gap
        && !byte.is_ascii_whitespace()
}

/// The words of a source and its marks of one byte, in order; no comments, no literals, and no slashes.
pub fn pieces(alloc: Global, source: &[u8]) -> Result<Vec<Piece>, AllocError> {
    let mut found = Vec::new(alloc);
    let mut inside = Inside::Gap;
    for (at, byte) in source.iter().enumerate() {
        let next = behind(inside, *byte, at);
        if let Inside::Word(start) = inside {
            if next != inside {
                found.push(Piece { start, end: at })?;
            }
        }
        if is_mark(inside, next, *byte) {
            found.push(Piece {
                start: at,
                end: at.saturating_add(1),
            })?;
        }
        inside = next;
    }
    if let Inside::Word(start) = inside {
        found.push(Piece {
            start,
            end: source.len(),
        })?;
    }
    Ok(found)
}

/// The bytes of a piece.
pub fn bytes_of(source: &[u8], piece: Piece) -> &[u8] {
    source.get(piece.start..piece.end).unwrap_or(&[])
}
