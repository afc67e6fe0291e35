// Operands, instructions and code of the VAX-11, as written in its assembly text.
#![tactic(auto)]

pub mod code;
pub mod home;
pub mod lookup;
pub mod op;
pub mod operand;
pub mod register;
pub mod same;
pub mod valid;

pub use code::{AreaItem, AreaItems, Code, CodeItem, CodeItems, Instr};
pub use op::{Access, Op, OperandKind, Shape};
pub use operand::{Addr, Base, Operand, Operands};
pub use register::{Reg, RegSet};
pub use same::Mode;
