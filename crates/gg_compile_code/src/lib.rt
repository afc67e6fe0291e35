//! The code of a tree program: each function is a frame round the code that is selected of its trees, with its homes in registers.
#![tactic(auto)]

mod assembling;
mod functions;
mod items;

pub use assembling::assemble;
