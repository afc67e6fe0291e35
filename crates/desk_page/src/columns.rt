// Texts side by side.
use gg_base::NoMemory;
use std::alloc::Global;

/// The widths of texts that stand side by side, from the left.
pub type Columns<'a> = &'a [usize];

// Adds one cell: the text's first characters, and blanks up to the width.
fn put_cell(told: &mut String, text: &str, width: usize) -> Result<(), NoMemory> {
    let mut count = 0_usize;
    for letter in text.chars().take(width) {
        told.push(letter)?;
        count = count.saturating_add(1);
    }
    for _ in count..width {
        told.push(' ')?;
    }
    Ok(())
}

// The rest of a text behind its first characters.
fn behind(text: &str, width: usize) -> &str {
    match text.char_indices().nth(width) {
        Some((at, _)) => text.get(at..).unwrap_or(""),
        None => "",
    }
}

// One line of the cells; each cell keeps what did not fit. The answer is whether something is left.
fn put_line(
    alloc: Global,
    told: &mut String,
    cells: &mut [&str],
    widths: Columns,
) -> Result<bool, NoMemory> {
    let mut line = String::new(alloc);
    let mut is_left = false;
    for (cell, width) in cells.iter_mut().zip(widths) {
        put_cell(&mut line, cell, *width)?;
        line.push_str("  ")?;
        let rest = behind(cell, *width);
        is_left = is_left || !rest.is_empty();
        *cell = rest;
    }
    writeln!(told, "{}", line.trim_end())?;
    Ok(is_left)
}

/// Adds cells side by side, two blanks between them; what is wider than its column goes on below, up to so many lines.
pub fn put_columns(
    alloc: Global,
    told: &mut String,
    cells: &mut [&str],
    widths: Columns,
) -> Result<(), NoMemory> {
    for _ in 0..200_u32 {
        if !put_line(alloc, told, cells, widths)? {
            return Ok(());
        }
    }
    Ok(())
}
