//! When steps lead from one run to another, on any machine.
#![tactic(auto)]

pub mod laws;
