//! The code that is selected of a program's trees keeps them.
#![tactic(auto)]

pub mod laws;

pub use gg_compile_code::assemble;
