//! Where a divisor is zero, the lines of a rule of the VAX trap.
#![tactic(auto)]

pub mod laws;
