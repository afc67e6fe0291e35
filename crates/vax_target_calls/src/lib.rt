//! Statements of the VAX's descriptions that call.
#![tactic(auto)]

pub mod laws;
