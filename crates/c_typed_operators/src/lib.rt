//! The table of C operators, on operands that have their types.
#![tactic(auto)]

pub mod assignment;
pub mod rules;
pub mod table;
