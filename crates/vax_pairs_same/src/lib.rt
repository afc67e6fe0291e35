//! Whether two trees of pieces of code say the same.
#![tactic(auto)]

pub mod answers;
pub mod doubt;
pub mod events;
pub mod pair;
pub mod states;
pub mod terms;
pub mod trees;
