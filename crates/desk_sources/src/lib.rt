//! Why a C source is refused: its first fault under its line, and the words of C in it that the language leaves out.
#![tactic(auto)]

pub mod left_out;
pub mod pieces;
pub mod why;

pub use why::put_why;
