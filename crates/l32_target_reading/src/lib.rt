//! What operands of L32 read and name in a state that stands for a tree state.
#![tactic(auto)]

pub mod laws;
