//! Rows about passes: what lists of passes make of assembly texts.
#![tactic(auto)]

pub mod own;
pub mod passes;
