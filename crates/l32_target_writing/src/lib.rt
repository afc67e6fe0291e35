//! The lines of L32's templates, with their holes filled, are valid instructions.
#![tactic(auto)]

pub mod laws;
