// Reading an assembly text, with the first line that is wrong.
#![tactic(auto)]

pub mod address;
pub mod fault;
pub mod fronts;
mod instr;
mod kind;
pub mod line;
mod line_fault;
mod operand;
pub mod reader;

pub use fault::{AsmFault, AsmKind};
pub use reader::read_code;
