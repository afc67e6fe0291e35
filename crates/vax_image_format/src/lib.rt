//! The binary image of a code, as definitions, with the table of its opcodes.
#![tactic(auto)]

pub mod field;
pub mod laws;
pub mod opcodes;
pub mod rows;

pub use field::{Mark, Ref, Sign};
pub use opcodes::{is_branch, is_call, is_conditional, op_of, opcode, opposite};
