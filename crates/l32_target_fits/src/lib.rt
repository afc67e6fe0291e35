//! What L32's slots and shapes may stand for.
#![tactic(auto)]

pub mod laws;
