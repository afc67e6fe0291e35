//! The constants of the effects of L32's templates are longwords.
#![tactic(auto)]

pub mod laws;
