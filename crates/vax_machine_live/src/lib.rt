// The live calls of a VAX run: each one's frame, and which bytes of the stack its control words take.
#![tactic(auto)]

pub mod frame;
pub mod frames;

pub use frame::Frame;
pub use frames::Frames;
