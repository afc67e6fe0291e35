// Reading an assembly text of L32, with the first line that is wrong.
#![tactic(auto)]

mod address;
mod area;
mod fronts;
mod instr;
mod item;
mod kind;
mod line_fault;
mod operand;
pub mod reader;

pub use reader::{Asm32Fault, Asm32Kind, read32};
