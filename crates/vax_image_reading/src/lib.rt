//! Reading a binary image: the code of each image, and of bytes that are none nothing or some code.
#![tactic(auto)]

pub mod cursor;
pub mod fault;
pub mod fields;
pub mod instr;
pub mod items;
pub mod laws;
pub mod operand;
pub mod parts;
pub mod reading;

pub use fault::DecodeFault;
pub use reading::read_code;
