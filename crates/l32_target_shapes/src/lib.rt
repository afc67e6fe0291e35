//! Rules of L32's templates that give a shape: what it reads and names.
#![tactic(auto)]

pub mod laws;
