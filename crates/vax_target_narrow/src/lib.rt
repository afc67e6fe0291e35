//! The constants of what the VAX's templates do are longwords.
#![tactic(auto)]

pub mod laws;
