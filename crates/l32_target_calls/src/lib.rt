//! Statements of L32's templates that call do so.
#![tactic(auto)]

pub mod laws;
