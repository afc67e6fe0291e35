// Rows of the subject `commands`: calls of the commands in memory. Of each is written a status, what was written to the output, a bar, and
// the report:
// - `REGISTERS@SOURCE@N@INPUT`: the source compiled by the shipped description with so many registers in its pool, or as it is, and both
//   sides run with that number and that input: what `run` of the text leaves behind, and what `meaning` of the source leaves, where that
//   differs; or how the source is refused. A description is read and checked once for the rows that name it one behind another. Marks may
//   stand behind the input, with `@` between: the shipped passes that the text is written by.
// - `text@TEXT@N@INPUT`: what `run` of that assembly text leaves behind; `~` stands for a TAB there and `/` for a line feed.
// - `source@SOURCE@N@INPUT`: what `meaning` of that source leaves behind.
// - `writes@SOURCE@1@`: how the writing of the text of that source ends at each of its calls that fails, one for each byte.
// - `ggvax@WORDS@FILE@INPUT@MARKS`: what the whole program leaves behind, by words between commas, where the folder has the shipped
//   description as `d`, the small one as `m`, that of L32 as `l`, the large one as `h`, and the file `s`; `→` stands for a TAB there and
//   `¶` for a line feed. The marks are told with `World`.
// - `fronts@WORDS@FILE@INPUT@MARKS`: the same of each front of the file, behind the least length of those that leave it.
use crate::both::{Opened, open, told_of, written_of};
use crate::fronts::fronts_of;
use crate::world::{SOURCE, TEXT, World, called, folder_of, ran};
use gg_base::NoMemory;
use std::alloc::{AllocError, Global};

// The text of a row, in which the two letters stand for a TAB and for a line feed.
fn unfolded(alloc: Global, row: &str, tab: char, line_feed: char) -> Result<String, AllocError> {
    row.chars()
        .map(|letter| {
            if letter == tab {
                '\t'
            } else if letter == line_feed {
                '\n'
            } else {
                letter
            }
        })
        .collect(alloc)
}

// Opens the description with so many registers, where another one is open.
fn open_with(alloc: Global, opened: &mut Opened, registers: &str) -> Result<(), AllocError> {
    if opened.registers.as_str() != registers {
        *opened = open(alloc, registers)?;
    }
    Ok(())
}

// What the row's run leaves behind.
fn answer_run(
    alloc: Global,
    opened: &mut Opened,
    kind: &str,
    file: &str,
    count: u64,
    input: &str,
    marks: &str,
) -> Result<String, AllocError> {
    match kind {
        "text" => {
            let text = unfolded(alloc, file, '~', '/')?;
            let mut folder = folder_of(alloc, TEXT, text.as_bytes())?;
            ran(alloc, &mut folder, true, count, input)
        }
        "source" => {
            let mut folder = folder_of(alloc, SOURCE, file.as_bytes())?;
            ran(alloc, &mut folder, false, count, input)
        }
        "writes" => {
            open_with(alloc, opened, "")?;
            written_of(alloc, opened, file)
        }
        registers => {
            open_with(alloc, opened, registers)?;
            let world = World::of(alloc, marks)?;
            told_of(alloc, opened, file, count, input, &world.passes)
        }
    }
}

// What the whole program leaves behind, of the file or of each front of it.
fn answer_call(
    alloc: Global,
    kind: &str,
    words: &str,
    file: &str,
    input: &str,
    marks: &str,
) -> Result<String, AllocError> {
    let file = unfolded(alloc, file, '→', '¶')?;
    if kind == "fronts" {
        return fronts_of(alloc, words, &file, input, marks);
    }
    called(alloc, words, &file, input, World::of(alloc, marks)?)
}

fn answer(alloc: Global, opened: &mut Opened, row: &str) -> Result<String, AllocError> {
    let mut parts = row.split('@');
    let (Some(kind), Some(first), Some(second), Some(third)) = (
        parts.next(),
        parts.next(),
        parts.next(),
        parts.next(),
    ) else {
        return String::from_str(alloc, "no row");
    };
    let marks = parts.next().unwrap_or("");
    if kind == "ggvax" || kind == "fronts" {
        return answer_call(alloc, kind, first, second, third, marks);
    }
    match second.parse::<u64>() {
        Ok(count) => answer_run(alloc, opened, kind, first, count, third, marks),
        Err(_) => String::from_str(alloc, "no number"),
    }
}

fn answer_rows(
    alloc: Global,
    opened: &mut Opened,
    rows: &str,
    told: &mut String,
) -> Result<(), NoMemory> {
    for row in rows.lines() {
        let answer = answer(alloc, opened, row)?;
        writeln!(told, "{answer}")?;
    }
    Ok(())
}

/// Adds what each row's call leaves behind.
pub fn answer_commands(alloc: Global, rows: &str, told: &mut String) -> Result<(), NoMemory> {
    let mut opened = open(alloc, "")?;
    answer_rows(alloc, &mut opened, rows, told)
}
