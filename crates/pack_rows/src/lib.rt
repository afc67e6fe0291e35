//! Packed rows: a table of rows of numbers of which most are the same is kept as each row's most frequent entry and the exceptions to it.
#![tactic(auto)]

mod packed;
mod packing;

pub use packed::Packed;
pub use packing::pack;
