//! The code of a function: its frame round its body, and where its locals stand.
#![tactic(auto)]

pub mod frame;
pub mod mask;

pub use frame::{frame_code, home};

#[cfg(test)]
mod tests;
