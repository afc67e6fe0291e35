//! Trees with answers, and how their parse by the tables ends.
#![tactic(auto)]

mod ordering;
mod parse;
mod replaying;
mod sample;
mod stack;
mod typing;

pub use parse::clear;
pub use replaying::replay;
pub use sample::{Outcome, Sample, SampleNode};
pub use typing::is_statement;
