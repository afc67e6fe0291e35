//! The tree of a piece of code, by a run on terms.
#![tactic(auto)]

pub mod code;
pub mod front;
pub mod gap;
pub mod heap;
pub mod operands;
pub mod results;
pub mod services;
pub mod size;
pub mod state;
pub mod tree;
pub mod walk;
