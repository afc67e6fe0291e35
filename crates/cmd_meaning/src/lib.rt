// The command `meaning S N`: reads a C source and the input, and runs the source by its meaning, with at most N counted turns of
// loops and calls.
#![tactic(auto)]

pub mod lines;
pub mod meaning;
pub mod moments;
pub mod source;

pub use meaning::run_source;
pub use source::SourceText;
