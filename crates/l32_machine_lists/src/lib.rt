//! What instructions of L32 do where they stand in a code.
#![tactic(auto)]

pub mod laws;
