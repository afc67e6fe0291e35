//! The run of a text: what is still to be read, one token at a time, and its laws.
#![tactic(auto)]

pub mod fault;
pub mod laws;

pub use fault::Fault;
