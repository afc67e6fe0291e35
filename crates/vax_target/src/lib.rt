//! The VAX as a target: what templates do to symbols, and templates with their holes filled.
#![tactic(auto)]

mod filling;
mod line;
mod vax;
mod word;

pub use vax::{State, Vax};
pub use vax_target_judging::found;
