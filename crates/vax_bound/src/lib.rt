//! How many instructions a run of a code takes: no more than its calls and its jumps backward allow.
#![tactic(auto)]

pub mod laws;
