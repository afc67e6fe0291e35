//! The types of C expressions, and the first fault of each.
#![tactic(auto)]

pub mod laws;
pub mod phrase;

pub use phrase::{Functions, expression, first, integer_of, written};
