//! Instructions of L32 are done in order; what a template of L32 divides by, and that a statement has a line.
#![tactic(auto)]

pub mod laws;
