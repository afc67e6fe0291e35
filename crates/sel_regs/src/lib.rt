//! The registers and the frame words that a selection of instructions takes and gives back, without memory.
#![tactic(auto)]

mod needs;
mod pool;
mod slots;
#[cfg(test)]
mod tests;

pub use needs::need;
pub use pool::{Pool, Register};
pub use slots::Slots;
