//! What selected code has of its function's arguments.
#![tactic(auto)]

pub mod laws;
