//! Which locals of a function are to live in registers: a choice that a caller hands in.
#![tactic(auto)]

mod choice;
pub mod laws;
mod rehoming;
mod used;

pub use choice::{Declared, HomeChoice};
pub use rehoming::rehomed;
pub use used::MostUsed;
