//! Statements of L32's templates that branch and jump do so.
#![tactic(auto)]

pub mod laws;
