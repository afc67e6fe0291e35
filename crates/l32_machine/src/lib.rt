// The L32 runner: a machine that does one instruction of a code at a time.
#![tactic(auto)]

pub mod area;
pub mod call;
pub mod frame;
pub mod function;
pub mod label;
pub mod laws;
pub mod loading;
pub mod machine;
pub mod memory;
pub mod operands;
pub mod program;
pub mod running;
pub mod table;
pub mod turn;

pub use frame::Frame32;
pub use loading::{Load32Fault, load32};
pub use machine::Machine32;
pub use running::run32_for;
pub use turn::{Break32, Stop32, Turn32};
