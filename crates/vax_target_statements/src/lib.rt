//! What the statements of the VAX do.
#![tactic(auto)]

pub mod laws;
