//! The code that is selected of a program's trees: it keeps the program, only memory can be wanting for it,
//! and a text can be written of it.
#![tactic(auto)]

pub mod laws;

pub use gg_compile_keeps::assemble;
