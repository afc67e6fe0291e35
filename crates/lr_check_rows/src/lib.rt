//! What is found at a state and a token, for sets of tokens behind, and what follows from it.
#![tactic(auto)]

mod following;
mod rows;
mod settling;

pub use following::{begins_first, begins_only, begins_second, begins_whole};
pub use rows::{Line, Row};
pub use settling::{settles_leaf, settles_one, settles_reduced, settles_two};
