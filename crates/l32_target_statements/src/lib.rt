//! Statements of L32's templates that store, push, save and return do their deed.
#![tactic(auto)]

pub mod laws;
