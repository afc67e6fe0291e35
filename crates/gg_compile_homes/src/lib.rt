//! The code of a typed program whose functions want other locals in registers: it keeps the program, whatever is chosen.
#![tactic(auto)]

pub mod laws;
