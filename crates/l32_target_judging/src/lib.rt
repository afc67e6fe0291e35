//! What the lines of a template of L32 do to symbols, and the first fault in it.
#![tactic(auto)]

pub mod found;
mod giving;
mod judging;
mod shape;
