//! What is wrong with what was found of places and sums, and where.
#![tactic(auto)]

mod flaws;
pub mod laws;

pub use flaws::Flaw;
