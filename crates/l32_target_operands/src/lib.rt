//! A template's operand stands on L32 where the template says, and L32's functions compute what their rows say.
#![tactic(auto)]

pub mod laws;
