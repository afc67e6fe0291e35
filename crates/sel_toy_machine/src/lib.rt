//! A toy machine on which selection is tried: its operands, instructions and templates, and what they mean.
#![tactic(auto)]

mod form;
mod laws;
mod operand;

pub use form::{Form, ShapeForm};
pub use laws::sum_is_set;
pub use operand::{Destination, Instr, Operand, Source};
