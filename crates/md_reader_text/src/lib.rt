//! A text's lines, a line's words, and what a word says: a fixed word or a decimal number.
#![tactic(auto)]

mod lines;
mod numbers;
#[cfg(test)]
mod tests;
mod words;

pub use lines::next_line;
pub use numbers::{integer, number};
pub use words::{is_word, next_word};
