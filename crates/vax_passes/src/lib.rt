//! Passes over code, handed in as boxes, and two of them.
#![tactic(auto)]

pub mod dead_tail;
pub mod front;
pub mod next_jump;
pub mod pass;

pub use dead_tail::DeadTail;
pub use next_jump::NextJump;
pub use pass::{Pass, run_passes};
