//! How much typing and lowering count: few of each, so that no count of a unit of a source has more than 32 bits.
#![tactic(auto)]

pub mod laws;
