//! Whole programs: from a typed program, by a description's tables, to its trees and its code.
#![tactic(auto)]

mod compiler;
mod fault;
mod needs;

pub use compiler::{Compiled, compile};
pub use fault::CompileFault;
pub use gg_accepted::Accepted;
pub use vax_target::Vax;
