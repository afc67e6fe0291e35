// A line's text, and how it is cut into pieces.
ghost use Rattle.std.specs.Prelude.{◌≡◌, ◌≤◌, ◌++◌, length, OnOk, IfOk, IfSome};
ghost use Rattle.std.specs.Option.{option_map};
ghost use Rattle.md_reader_text.specs.Words.{words};
ghost use Rattle.md_reader_pieces.specs.Pieces.{part_len, plain, hole_at, hole_pieces, pieces, text_of, Adds, ArePieces};

use crate::piece::{Piece, PieceFault};
use gg_base::fronts::digits_len;
use gg_base::{Bytes, NoMemory};
use md_reader_text::{next_word, number};
use std::alloc::Global;

/// How many bytes stand before the first `%`.
fn part_len(text: &[u8]) -> usize
    ensures len { result ≡ part_len text.now }
    ensures bound { result ≤ length text.now }
{
    text.iter()
        .position(|byte| *byte == b'%')
        .unwrap_or(text.len())
}

/// The hole whose name stands at the front, and how long the name is.
fn hole_at(part: &[u8]) -> Option<(Piece, usize)>
    ensures is { result ≡ hole_at part.now }
    ensures within { IfSome result (λ x. x.1 ≤ length part.now) }
{
    match part {
        [b'L', ..] => Some((Piece::Label, 1)),
        [b'F', ..] => Some((Piece::Callee, 1)),
        [b'N', ..] => Some((Piece::Count, 1)),
        _ => {
            let len = digits_len(part);
            let symbol = number(255, &part[..len])?;
            Some((Piece::Hole(symbol as u8), len))
        }
    }
}

fn push_plain(alloc: Global, read: &mut Vec<Piece>, bytes: &[u8]) -> Result<(), PieceFault>
    ensures { Adds result read.old.items read.new.items (Some (plain bytes.now)) }
{
    if bytes.is_empty() {
        return Ok(());
    }
    let mut copy = Vec::new(alloc);
    copy.extend_from_slice(bytes)?;
    read.push(Piece::Bytes(Bytes::from_vec(copy)))?;
    Ok(())
}

fn push_hole(alloc: Global, read: &mut Vec<Piece>, part: &[u8]) -> Result<(), PieceFault>
    ensures { Adds result read.old.items read.new.items (hole_pieces part.now) }
{
    let Some((hole, len)) = hole_at(part) else {
        return Err(PieceFault::BadHole);
    };
    read.push(hole)?;
    push_plain(alloc, read, &part[len..])
}

/// The pieces of a text: bytes, and a hole where a `%` stands.
pub fn pieces(alloc: Global, text: &[u8]) -> Result<Vec<Piece>, PieceFault>
    ensures { ArePieces result (pieces text.now) }
{
    let mut read = Vec::new(alloc);
    let mut at = part_len(text);
    push_plain(alloc, &mut read, &text[..at])?;
    while at < text.len() {
        let after = &text[at + 1..];
        let len = part_len(after);
        push_hole(alloc, &mut read, &after[..len])?;
        at += 1 + len;
    }
    Ok(read)
}

fn joined(alloc: Global, mnemonic: &[u8], operands: &[u8]) -> Result<Vec<u8>, NoMemory>
    ensures { IfOk result (λ t. t.items ≡ mnemonic.now ++ 32 ∷ operands.now) }
{
    let mut text = Vec::new(alloc);
    text.extend_from_slice(mnemonic)?;
    text.push(b' ')?;
    text.extend_from_slice(operands)?;
    Ok(text)
}

ghost use Rattle.std.specs.Prelude.{◌∷◌};

/// The text of an instruction: its mnemonic, and its operands behind one space. A line of no word or
/// of more than two is no instruction.
pub fn line_text(alloc: Global, line: &[u8]) -> Result<Option<Vec<u8>>, NoMemory>
    ensures { IfOk result (λ o. option_map (λ t. t.items) o ≡ text_of (words line.now)) }
{
    let Some((mnemonic, rest)) = next_word(line) else {
        return Ok(None);
    };
    let Some((operands, rest)) = next_word(rest) else {
        let mut text = Vec::new(alloc);
        text.extend_from_slice(mnemonic)?;
        return Ok(Some(text));
    };
    if next_word(rest).is_some() {
        return Ok(None);
    }
    let text = joined(alloc, mnemonic, operands)?;
    Ok(Some(text))
}
