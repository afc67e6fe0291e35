//! Only the first symbol of a rule branches or saves.
#![tactic(auto)]

pub mod laws;
