//! What is spelled of the VAX's templates is valid: lines with their holes filled, shapes, and the lines that save and reload.
#![tactic(auto)]

pub mod laws;
