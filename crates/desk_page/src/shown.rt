// A place in a text, under the line that it is in.
ghost use Rattle.std.specs.Prelude.{◌≤◌, IfOk};

use gg_base::NoMemory;
use std::alloc::Global;

/// How many characters of a line are shown.
pub const SHOWN: usize = 120;

/// The last column at which a place is shown.
const LAST: usize = 100;

/// A line as it is shown: at most 120 of its characters, blanks for those that move the cursor; and the column of the place in it, from 0.
#[derive(Drop)]
pub struct Shown {
    pub text: String,
    pub column: usize,
}

/// The line of this number, from 1, without its line feed.
pub fn line_at(text: &[u8], number: u32) -> Option<&[u8]> {
    let before = (number as usize).checked_sub(1)?;
    text.split(|byte| *byte == b'\n').nth(before)
}

// How many characters so many bytes of a line are.
fn characters(alloc: Global, line: &[u8], bytes: usize) -> Result<usize, NoMemory> {
    let before = line.get(..bytes).unwrap_or(line);
    Ok(String::from_utf8_lossy(alloc, before)?.chars().count())
}

// Those of the line's characters that are shown, from the first on.
fn cut(alloc: Global, line: &str, first: usize) -> Result<String, NoMemory> {
    Ok(
        line.chars()
            .skip(first)
            .take(SHOWN)
            .map(|letter| if letter.is_control() { ' ' } else { letter })
            .collect(alloc)?,
    )
}

/// The part of a line round the place behind so many of its bytes.
pub fn part_of(alloc: Global, line: &[u8], bytes: usize) -> Result<Shown, NoMemory>
    ensures { IfOk result (λ s. s.column ≤ 120) }
{
    let place = characters(alloc, line, bytes)?;
    let first = place.saturating_sub(LAST);
    let whole = String::from_utf8_lossy(alloc, line)?;
    let text = cut(alloc, &whole, first)?;
    Ok(Shown {
        text,
        column: place - first,
    })
}

/// Adds the line of this number, and a caret under its column, which counts bytes from 1; column 0 has no caret. Of an empty line, and of
/// one that isn't there, nothing is added.
pub fn put_place(
    alloc: Global,
    told: &mut String,
    text: &[u8],
    line: u32,
    column: u32,
) -> Result<(), NoMemory> {
    let Some(bytes) = line_at(text, line) else {
        return Ok(());
    };
    if bytes.is_empty() {
        return Ok(());
    }
    let part = part_of(alloc, bytes, (column as usize).saturating_sub(1))?;
    writeln!(told, "{line:>6} | {}", part.text.trim_end())?;
    if column > 0 {
        told.push_str("       | ")?;
        for _ in 0..part.column {
            told.push(' ')?;
        }
        told.push_str("^\n")?;
    }
    Ok(())
}
