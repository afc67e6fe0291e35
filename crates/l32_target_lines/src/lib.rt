//! A line of a template of L32 does what it is judged to do.
#![tactic(auto)]

pub mod laws;
