//! Selection of instructions by a description's tables, for any target: first each rule is shown to do what its pattern says.
#![tactic(auto)]

mod fault;
mod generator;
pub mod laws;
mod selection;
mod showing;

pub use fault::ShowFault;
pub use generator::{Generator, show_rules};
pub use selection::{SelectFault, Selected, select};
