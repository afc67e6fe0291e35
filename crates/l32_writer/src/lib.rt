// The assembly text of an L32 code.
#![tactic(auto)]

mod area;
mod item;
pub mod writer;

pub use writer::write32;
