//! Laws of the rules of the VAX: what their lines leave.
#![tactic(auto)]

pub mod laws;
