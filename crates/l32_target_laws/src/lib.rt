//! L32 keeps the laws of a target.
#![tactic(auto)]

pub mod laws;
