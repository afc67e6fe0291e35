//! Passes over branches and condition codes, and the laws by which they keep what a code does.
#![tactic(auto)]

pub mod jump_chain;
pub mod laws;
pub mod marks;
pub mod needless_test;
pub mod nexts;
pub mod reading;
pub mod sources;

pub use jump_chain::JumpChain;
pub use needless_test::NeedlessTest;
