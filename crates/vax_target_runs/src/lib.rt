//! Laws of the lines of a template, one after another: what they change, and where they end.
#![tactic(auto)]

pub mod laws;
