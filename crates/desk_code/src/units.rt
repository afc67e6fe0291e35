// The statements and declarations of a function's body, in the text of a source.
use desk_sources::left_out::Words;
use std::alloc::{AllocError, Global};

// The most statements of a body.
const MOST_UNITS: usize = 1_000;

/// What a part of a body is.
#[derive(Clone, Copy, PartialEq, Eq)]
pub enum Kind {
    Statement,
    /// Variables of the function, whose initialisers are carried out.
    Declaration,
    /// Variables that are objects.
    Objects,
}

/// A part of a function's body, up to before the word or mark with the second number.
#[derive(Clone, Copy)]
pub struct Unit {
    pub kind: Kind,
    pub first: usize,
    pub behind: usize,
}

fn opens(word: &str) -> bool {
    matches!(word, "{" | "(" | "[")
}

fn closes(word: &str) -> bool {
    matches!(word, "}" | ")" | "]")
}

fn kind_of(word: &str) -> Kind {
    match word {
        "int" | "char" | "short" | "unsigned" | "register" => Kind::Declaration,
        "static" => Kind::Objects,
        _ => Kind::Statement,
    }
}

/// The number of the word or mark behind the brace that opens a function's body.
pub fn body_of(words: Words, name: &str) -> Option<usize> {
    let mut depth = 0_usize;
    let mut is_named = false;
    for number in 0..words.pieces.len() {
        let word = words.at(number);
        let next = number.saturating_add(1);
        if word == "{" && depth == 0 && is_named {
            return Some(next);
        }
        if opens(word) {
            depth = depth.saturating_add(1);
        } else if closes(word) {
            depth = depth.saturating_sub(1);
        } else if depth == 0 && word == ";" {
            is_named = false;
        } else if depth == 0 && word == name {
            is_named = words.at(next) == "(";
        }
    }
    None
}

// The number behind the last word or mark of a statement or declaration.
fn unit_behind(words: Words, first: usize) -> usize {
    let mut is_do = words.at(first) == "do";
    let mut depth = 0_usize;
    for number in first..words.pieces.len() {
        let word = words.at(number);
        if opens(word) {
            depth = depth.saturating_add(1);
        } else if closes(word) {
            depth = depth.saturating_sub(1);
        }
        if depth == 0 && matches!(word, ";" | "}") {
            let behind = number.saturating_add(1);
            let next = words.at(behind);
            if is_do && next == "while" {
                is_do = false;
            } else if next != "else" {
                return behind;
            }
        }
    }
    words.pieces.len()
}

/// The statements and declarations of a function's body, in order.
pub fn units_of(alloc: Global, words: Words, name: &str) -> Result<Vec<Unit>, AllocError> {
    let mut units = Vec::new(alloc);
    let Some(mut first) = body_of(words, name) else {
        return Ok(units);
    };
    for _ in 0..MOST_UNITS {
        let word = words.at(first);
        if matches!(word, "}" | "") {
            return Ok(units);
        }
        let behind = unit_behind(words, first);
        units.push(Unit {
            kind: kind_of(word),
            first,
            behind,
        })?;
        first = behind;
    }
    Ok(units)
}

// Blanks in the place of bytes; lines stay.
fn blank(text: &mut [u8], start: usize, end: usize) {
    for (at, byte) in text.iter_mut().enumerate() {
        if start <= at && at < end && *byte != b'\n' {
            *byte = b' ';
        }
    }
}

/// Where a word or mark begins.
pub fn start_of(words: Words, number: usize) -> usize {
    match words.pieces.get(number) {
        Some(piece) => piece.start,
        None => words.source.len(),
    }
}

/// Adds where the declarators of a declaration end that have no value and no length: a value may be put there.
pub fn push_bare_ends(words: Words, unit: Unit, ends: &mut Vec<usize>) -> Result<(), AllocError> {
    let mut depth = 0_usize;
    let mut is_bare = true;
    for number in unit.first..unit.behind {
        let word = words.at(number);
        if depth == 0 && matches!(word, "=" | "[") {
            is_bare = false;
        }
        if opens(word) {
            depth = depth.saturating_add(1);
        } else if closes(word) {
            depth = depth.saturating_sub(1);
        } else if depth == 0 && matches!(word, "," | ";") {
            if is_bare {
                ends.push(start_of(words, number))?;
            }
            is_bare = true;
        }
    }
    Ok(())
}

/// Takes a statement or declaration out of a text. Objects stay.
pub fn take_out(text: &mut [u8], words: Words, unit: Unit) {
    if unit.kind != Kind::Objects {
        let last = unit.behind.saturating_sub(1);
        let end = start_of(words, last).saturating_add(1);
        blank(text, start_of(words, unit.first), end);
    }
}
