// Long lines, and the places of words in a line.
use gg_base::NoMemory;

/// The most columns of a line, where its words allow it.
pub const WIDTH: usize = 140;

/// Adds a line; what comes behind 140 columns goes on below, behind the indent.
pub fn put_wrapped(told: &mut String, line: &str, indent: &str) -> Result<(), NoMemory> {
    put_wrapped_at(told, line, indent, WIDTH)
}

/// Adds a line; what comes behind so many columns goes on below, behind the indent.
pub fn put_wrapped_at(
    told: &mut String,
    line: &str,
    indent: &str,
    most: usize,
) -> Result<(), NoMemory> {
    let mut width = 0_usize;
    for (number, word) in line.split(' ').enumerate() {
        let length = word.chars().count();
        if number > 0 && width.saturating_add(length) >= most {
            told.push('\n')?;
            told.push_str(indent)?;
            width = indent.chars().count();
        } else if number > 0 {
            told.push(' ')?;
            width = width.saturating_add(1);
        }
        told.push_str(word)?;
        width = width.saturating_add(length);
    }
    told.push('\n')?;
    Ok(())
}

fn column(at: usize) -> u32 {
    u32::try_from(at.saturating_add(1)).unwrap_or(u32::MAX)
}

/// The column, in bytes from 1, of a line's word with this number, from 0; that behind the line where it has fewer.
pub fn word_column(line: &[u8], number: usize) -> u32 {
    let mut words = 0_usize;
    let mut is_inside = false;
    for (at, byte) in line.iter().enumerate() {
        let is_letter = !byte.is_ascii_whitespace();
        if is_letter && !is_inside {
            if words == number {
                return column(at);
            }
            words = words.saturating_add(1);
        }
        is_inside = is_letter;
    }
    column(line.len())
}
