//! The code of a typed program whose functions want other locals in registers: within how many instructions it ends, that its calls keep
//! registers, and where its run begins.
#![tactic(auto)]

pub mod laws;
