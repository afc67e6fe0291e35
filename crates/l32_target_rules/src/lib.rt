//! The lines of a rule of L32 leave its result in its register.
#![tactic(auto)]

pub mod laws;
