//! The text that `compile` writes, read again and run, does what the source does.
#![tactic(auto)]

pub mod bounds;
pub mod exact;
pub mod laws;
pub mod loads;

pub use cmd_compile::Pass;
