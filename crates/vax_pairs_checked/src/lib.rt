//! A certificate of two codes: where it is shown of each of its cuts, the codes behave alike.
#![tactic(auto)]

pub mod laws;
