// What the lines of a description are when its rules are written out.
use gg_base::{Bytes, ListOf};

/// A line, and the number of the line of the text that it comes from, from 1.
#[derive(Drop)]
pub struct ExpandedLine {
    pub bytes: Bytes,
    pub from: u32,
}

/// Lines in their order.
pub type ExpandedLines = ListOf<ExpandedLine>;

/// The lines up to before the first bad `each` line, and its number if there is one.
#[derive(Drop)]
pub struct Expanded {
    pub lines: ExpandedLines,
    pub bad: Option<u32>,
}
