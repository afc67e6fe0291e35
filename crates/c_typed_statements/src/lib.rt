//! The types of C statements and functions, and the first fault of each.
#![tactic(auto)]

pub mod functions;
pub mod signatures;
pub mod statements;

pub use functions::{Builder, function};
pub use signatures::signature;
