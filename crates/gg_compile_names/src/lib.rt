//! What the instructions of a program's code name is there.
#![tactic(auto)]

pub mod laws;
