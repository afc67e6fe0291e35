// Rows of text in columns.
use desk_page::put_wrapped_at;
use gg_base::NoMemory;
use std::alloc::Global;

/// Cells, one below another.
pub type Cells = Vec<String>;

/// Adds a text as cells of at most so many columns, where its words allow it.
pub fn push_text(
    alloc: Global,
    cells: &mut Cells,
    text: &str,
    width: usize,
) -> Result<(), NoMemory> {
    let mut lines = String::new(alloc);
    put_wrapped_at(&mut lines, text, "  ", width)?;
    for line in lines.lines() {
        cells.push(String::from_str(alloc, line)?)?;
    }
    Ok(())
}

/// Adds empty cells up to so many.
pub fn fill_up(alloc: Global, cells: &mut Cells, count: usize) -> Result<(), NoMemory> {
    for _ in cells.len()..count {
        cells.push(String::new(alloc))?;
    }
    Ok(())
}

/// The cell with this number; empty where there is none.
pub fn cell_at(cells: &[String], number: usize) -> &str {
    match cells.get(number) {
        Some(cell) => cell.as_str(),
        None => "",
    }
}
