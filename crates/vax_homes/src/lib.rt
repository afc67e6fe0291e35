//! Locals in registers: which locals of a function get one, and its body with them.
#![tactic(auto)]

pub mod choose;
pub mod laws;
pub mod rewrite;

pub use choose::{Home, homes_of};
pub use rewrite::homed;

#[cfg(test)]
mod tests;
