//! A toy machine as a target: selection is tried on it, and it keeps all laws of a target.
#![tactic(auto)]

mod effect;
mod filling;
mod forms;
mod target;

pub use sel_toy_machine::{Destination, Instr, Operand, Source};
pub use target::Toy;
