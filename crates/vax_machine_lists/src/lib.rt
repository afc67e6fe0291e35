//! Laws of lists of instructions: what they make of a machine's state by themselves, and that the machine's steps do the same.
#![tactic(auto)]

pub mod laws;
