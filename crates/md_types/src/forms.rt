// The lines that the parts of a description begin with, and the letters of sizes.
ghost use Rattle.std.specs.Prelude.{◌≡◌, ◌≤◌, IfOk};
ghost use Rattle.std.specs.Option.{option_map};
ghost use Rattle.md_reader_text.specs.Words.{words};
ghost use Rattle.md_types.specs.Forms.{is_skipped, are_both, begins_with, is_each, is_rule, size_of, size_number};
ghost use Rattle.md_types.specs.Forms.{sizes_from, each_sizes};

use gg_base::{NoMemory, Size};
use md_reader_text::{is_word, next_word};
use std::alloc::Global;

/// Whether the line says nothing: it is blank, or its first word begins with `#`.
pub fn is_skipped(line: &[u8]) -> bool
    ensures { result ≡ is_skipped (words line.now) }
{
    match next_word(line) {
        None => true,
        Some((word, _)) => match word {
            [] => false,
            [byte, ..] => *byte == b'#',
        },
    }
}

/// Whether the line is these two words.
pub fn are_both(line: &[u8], first: &str, second: &str) -> bool
    ensures { result ≡ are_both (words line.now) first.now second.now }
{
    let Some((a, rest)) = next_word(line) else {
        return false;
    };
    let Some((b, rest)) = next_word(rest) else {
        return false;
    };
    match next_word(rest) {
        None => is_word(a, first) && is_word(b, second),
        Some(_) => false,
    }
}

fn begins_with(word: &str, line: &[u8]) -> bool
    ensures { result ≡ begins_with word.now (words line.now) }
{
    match next_word(line) {
        None => false,
        Some((first, _)) => is_word(first, word),
    }
}

/// Whether the line's first word is `each`.
pub fn is_each(line: &[u8]) -> bool
    ensures { result ≡ is_each (words line.now) }
{
    begins_with("each", line)
}

/// Whether the line's first word is `rule`.
pub fn is_rule(line: &[u8]) -> bool
    ensures { result ≡ is_rule (words line.now) }
{
    begins_with("rule", line)
}

/// The size that a letter names: `b`, `w` or `l`.
pub fn size_of(word: &[u8]) -> Option<Size>
    ensures { result ≡ size_of word.now }
{
    if is_word(word, "b") {
        Some(Size::Byte)
    } else if is_word(word, "w") {
        Some(Size::Word)
    } else if is_word(word, "l") {
        Some(Size::Long)
    } else {
        None
    }
}

/// Where the size stands among the three, from 0.
pub fn size_number(size: Size) -> usize
    ensures is { result ≡ size_number size }
    ensures small { result ≤ 2 }
{
    match size {
        Size::Byte => 0,
        Size::Word => 1,
        Size::Long => 2,
    }
}

fn sizes_from(alloc: Global, letters: &[u8]) -> Result<Option<Vec<Size>>, NoMemory>
    ensures { IfOk result (λ o. option_map (λ zs. zs.items) o ≡ sizes_from 0 (words letters.now)) }
{
    let mut sizes = Vec::new(alloc);
    let mut least = 0;
    let mut rest = letters;
    while let Some((word, after)) = next_word(rest) {
        let Some(size) = size_of(word) else {
            return Ok(None);
        };
        if size_number(size) < least {
            return Ok(None);
        }
        sizes.push(size)?;
        least = size_number(size) + 1;
        rest = after;
    }
    Ok(Some(sizes))
}

/// The sizes of an `each` line, of one to three different letters in the order of `b w l`.
pub fn each_sizes(alloc: Global, line: &[u8]) -> Result<Option<Vec<Size>>, NoMemory>
    ensures { IfOk result (λ o. option_map (λ zs. zs.items) o ≡ each_sizes (words line.now)) }
{
    let Some((_, letters)) = next_word(line) else {
        return Ok(None);
    };
    if next_word(letters).is_none() {
        return Ok(None);
    }
    sizes_from(alloc, letters)
}
