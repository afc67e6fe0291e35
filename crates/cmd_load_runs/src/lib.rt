//! Runs of a source and of a text on no input, into memory.
#![tactic(auto)]

pub mod laws;
mod source;
mod tally;
mod text;

pub use source::tally_source;
pub use tally::Tally;
pub use text::tally_text;
