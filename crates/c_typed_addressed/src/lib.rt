//! To which variables of a C function `&` is applied.
#![tactic(auto)]

pub mod expressions;
pub mod search;
pub mod statements;

pub use search::Addressed;
pub use statements::addressed;
