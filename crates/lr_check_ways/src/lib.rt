//! What some answers take at each state, as sets of the tokens that come next.
#![tactic(auto)]

mod sets;
mod ways;

pub use sets::{both, has, is_within, with};
pub use ways::{Reduction, Ways, ways_at};
