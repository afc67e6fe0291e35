//! The operands that the VAX's templates give stand for what the templates are judged to give.
#![tactic(auto)]

pub mod laws;
