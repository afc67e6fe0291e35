//! What follows where a state of the L32 machine stands for a state of a tree program.
#![tactic(auto)]

pub mod laws;
