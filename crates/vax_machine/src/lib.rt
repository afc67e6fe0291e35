// The VAX runner: a machine that does one instruction of a code at a time, in the profile of the integer VAX that this repository keeps.
#![tactic(auto)]

pub mod area;
pub mod call;
pub mod function;
pub mod label;
pub mod laws;
pub mod loading;
pub mod machine;
pub mod memory;
pub mod operands;
pub mod program;
pub mod running;
pub mod table;
pub mod turn;

pub use gg_base::Break;
pub use loading::{LoadFault, load};
pub use machine::Machine;
pub use running::run_for;
pub use turn::{Stop, Turn};
pub use vax_machine_live::Frames;
