// Operands, instructions and code of L32, a small load-store machine, as written in its assembly text.
#![tactic(auto)]

pub mod code;
pub mod lookup;
pub mod op;
pub mod operand;
pub mod valid;

pub use code::{Code32, Instr32, Item32, Items32};
pub use op::{Op32, Part, Role, Shape32};
pub use operand::{Base32, Operand32, Operands32};
