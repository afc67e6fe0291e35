// The lines of the rules of a description.
use gg_base::NoMemory;
use gg_base::limits::DESCRIPTION_LIMIT;
use md_reader_text::{is_word, next_word};
use md_types::expand;
use std::alloc::Global;

fn is_rule(line: &[u8]) -> bool {
    match next_word(line) {
        Some((word, _)) => is_word(word, "rule"),
        None => false,
    }
}

/// The number of the text's line on which each rule begins, rule by rule; copies of one rule have one line. None of too long a text.
pub fn rule_lines(alloc: Global, text: &[u8]) -> Result<Vec<u32>, NoMemory> {
    let mut numbers = Vec::new(alloc);
    if text.len() as u64 > DESCRIPTION_LIMIT {
        return Ok(numbers);
    }
    let expanded = expand(alloc, text)?;
    for line in expanded.lines.as_slice() {
        if is_rule(line.bytes.as_slice()) {
            numbers.push(line.from)?;
        }
    }
    Ok(numbers)
}

/// The line of a rule by its number, from 0; 0 where it has none.
pub fn line_of(lines: &[u32], rule: usize) -> u32 {
    lines.get(rule).copied().unwrap_or(0)
}
