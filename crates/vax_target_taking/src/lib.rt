//! What an operand of a template stands for, on terms, and what an instruction takes of it.
#![tactic(auto)]

pub mod heap;
pub mod setting;
pub mod standing;
pub mod taking;
