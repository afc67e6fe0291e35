//! Lines of templates of the VAX: their marks, the operands that they spell, and their instruction.
#![tactic(auto)]

pub mod form;
pub mod instruction;
pub mod marks;
pub mod refusal;
