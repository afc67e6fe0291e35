//! A reduction at work: registers are taken, entries saved and reloaded, lines written, and a rule's questions answered.
#![tactic(auto)]

mod desk;
mod entries;
mod holding;
mod questions;
mod reductions;
mod spills;
mod stack;
mod tally;

pub use desk::{Desk, DeskFault, Setting};
pub use questions::answered;
pub use reductions::{begin, reduce, shift};
