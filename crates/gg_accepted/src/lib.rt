//! Machine descriptions that are accepted for a machine: no typed statement stops the parse by their tables, and all their rules are shown
//! on the machine.
#![tactic(auto)]

mod accepting;

pub use accepting::{Accepted, accept};
