//! The lines of a machine description, in which each rule that is written once for several sizes stands once for each.
#![tactic(auto)]

mod copies;
mod expanding;
mod forms;
#[cfg(test)]
mod tests;
mod types;

pub use expanding::expand;
pub use forms::{are_both, is_skipped, size_number, size_of};
pub use types::{Expanded, ExpandedLine, ExpandedLines};
