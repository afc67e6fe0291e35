//! C programs with their types and their layout, as plain data, and how many longwords of its frame a function needs.
#![tactic(auto)]

pub mod need;
pub mod program;
pub mod statement;

pub use program::{Program, Routine};
pub use statement::{Action, Declaration};
