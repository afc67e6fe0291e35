//! What is saved in the VAX's frame, and brought back.
#![tactic(auto)]

pub mod laws;
