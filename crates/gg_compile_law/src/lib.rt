//! Laws of whole programs: the run of a compiled code follows the run of its trees.
#![tactic(auto)]

pub mod laws;
