//! Rules of the VAX's descriptions that give a shape.
#![tactic(auto)]

pub mod laws;
