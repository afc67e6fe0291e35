//! What an operand of a template of L32 stands for, on terms, and what an instruction takes of it.
#![tactic(auto)]

pub mod standing;
pub mod taking;
