//! Machines all of whose live calls may have homes in registers: what trees' code, calls and returns make of them.
#![tactic(auto)]

pub mod laws;
