//! The names that the lines of a template spell, on any target.
#![tactic(auto)]

pub mod laws;
