//! Two codes that do the same piece by piece: the definitions, and when two terms are worth the same.
#![tactic(auto)]

pub mod laws;
