// A description that is written in short.
use std::alloc::AllocError;

// The lines, so many times.
fn put_repeated(text: &mut String, count: u32, lines: &str) -> Result<(), AllocError> {
    for _ in 0..count {
        for line in lines.split(" / ") {
            writeln!(text, "{line}")?;
        }
    }
    Ok(())
}

// So many rules that share no item set behind their first symbols: the ten unary tokens of each are the binary digits of its number.
fn put_rules(text: &mut String, count: u32) -> Result<(), AllocError> {
    for number in 0..count {
        text.push_str("rule reg :")?;
        for place in 0..10u32 {
            let bit = number >> (9 - place) & 1;
            text.push_str(if bit == 0 { " Neg" } else { " Com" })?;
        }
        text.push_str(" Plus One Plus One One\n  give fresh\n")?;
    }
    Ok(())
}

/// Adds a line of a description: `* N A / B` stands for N times the lines A and B, and `^ N` for N rules that share no item set behind
/// their first symbols.
pub fn put_line(text: &mut String, line: &str) -> Result<(), AllocError> {
    if let Some(("*", rest)) = line.split_once(' ') {
        if let Some((count, lines)) = rest.split_once(' ') {
            return put_repeated(text, count.parse::<u32>().unwrap_or(0), lines);
        }
    }
    if let Some(("^", count)) = line.split_once(' ') {
        return put_rules(text, count.parse::<u32>().unwrap_or(0));
    }
    writeln!(text, "{line}")
}
