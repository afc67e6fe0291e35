//! The trees that show a fault of what was found, each with its answers: their parse blocks, or turns, by these answers.
#![tactic(auto)]

pub mod laws;
