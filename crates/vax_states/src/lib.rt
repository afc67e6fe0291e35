//! When a state of the VAX machine stands for a state of a tree program, and what follows from it.
#![tactic(auto)]

pub mod laws;
