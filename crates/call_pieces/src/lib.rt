//! The piece of the stack that a live call holds, on any machine, and what stores leave in it.
#![tactic(auto)]

pub mod laws;
