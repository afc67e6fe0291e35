//! Laws of lines of the VAX's templates: what an instruction takes and does when its line is run.
#![tactic(auto)]

pub mod laws;
