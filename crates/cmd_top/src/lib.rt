//! The whole program as one call: the words choose the command.
#![tactic(auto)]

pub mod top;

pub use cmd_load::{Accepted, Vax, read_accepted, text_of};
pub use top::ggvax;
