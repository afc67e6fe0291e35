//! The VAX's instructions are done in order; a template divides at most once, and a statement has a line.
#![tactic(auto)]

pub mod laws;
