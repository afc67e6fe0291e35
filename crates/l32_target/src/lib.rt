//! L32 as a target: what its templates do, lines and shapes with their holes filled, and what an operand spells.
#![tactic(auto)]

mod filling;
mod l32;
mod line;
mod same;
mod word;

pub use l32::{Frames, L32, State};
pub use l32_target_judging::found;
