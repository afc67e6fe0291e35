//! The law of two codes that do the same piece by piece, and of the runs on terms that say what a piece does.
#![tactic(auto)]

pub mod laws;
