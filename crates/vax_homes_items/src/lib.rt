//! What stays of a function's body where locals live in registers.
#![tactic(auto)]

pub mod laws;
