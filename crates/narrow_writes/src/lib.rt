//! A number of any size that is put into a list of bytes, on any machine.
#![tactic(auto)]

pub mod laws;
