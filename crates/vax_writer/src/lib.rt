// The assembly text of a code, in the Unix assembler's spelling.
#![tactic(auto)]

pub mod line;
pub mod operand;
pub mod writer;

pub use writer::write_code;
