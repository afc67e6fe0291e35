//! The lines of templates: an instruction as its pieces, which are bytes and holes.
#![tactic(auto)]

mod cutting;
mod piece;
#[cfg(test)]
mod tests;

pub use cutting::{line_text, pieces};
pub use piece::{Line, Piece, PieceFault, Pieces};
