//! Lines of L32's templates that divide by zero trap.
#![tactic(auto)]

pub mod laws;
