//! Laws of operands of the VAX's templates: where they stand when their line is run, and what the instructions compute of them.
#![tactic(auto)]

pub mod laws;
