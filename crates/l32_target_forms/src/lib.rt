//! Lines of templates of L32: the operands that they spell, and their instruction.
#![tactic(auto)]

mod form;
pub mod instruction;
