//! The code of an L32 function: its frame round its body.
#![tactic(auto)]

pub mod frame;

pub use frame::frame_code;

#[cfg(test)]
mod tests;
