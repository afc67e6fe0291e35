// Texts in one line: ~ stands for a tab and | for a line feed, and a line behind a number and a * stands so many times.
use std::alloc::{AllocError, Global};

// A line behind its count.
fn counted(part: &str) -> (u32, &str) {
    match part.split_once('*') {
        Some((count, line)) => match count.parse::<u32>() {
            Ok(count) => (count, line),
            Err(_) => (1, part),
        },
        None => (1, part),
    }
}

fn put_lines(text: &mut String, part: &str) -> Result<(), AllocError> {
    let (count, line) = counted(part);
    for _ in 0..count {
        text.extend(
            line.chars()
                .map(|letter| if letter == '~' { '\t' } else { letter }),
        )?;
        text.push('\n')?;
    }
    Ok(())
}

/// The text of a row, with a line feed behind each line.
pub fn unfolded(alloc: Global, row: &str) -> Result<String, AllocError> {
    let mut text = String::new(alloc);
    for part in row.split('|') {
        put_lines(&mut text, part)?;
    }
    Ok(text)
}

/// The row of a text.
pub fn folded(alloc: Global, text: &str) -> Result<String, AllocError> {
    text.chars()
        .map(|letter| match letter {
            '\t' => '~',
            '\n' => '|',
            other => other,
        })
        .collect(alloc)
}
