//! L32's templates store only to symbols that are places.
#![tactic(auto)]

pub mod laws;
