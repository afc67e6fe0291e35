//! What the phrases of a typed C program are lowered to, and how the parts of a phrase are put together.
#![tactic(auto)]

pub mod change;
pub mod condition;
pub mod flow;
pub mod item;
pub mod mention;
pub mod operation;
pub mod order;
pub mod part;
pub mod passing;
pub mod place;
pub mod spelling;
pub mod tree;
pub mod zeros;
