//! The lines of a template of L32 do what they are judged to do, one after another.
#![tactic(auto)]

pub mod laws;
