// The command `run A N`: reads an assembly text and the input, and runs the text's code for at most N steps.
#![tactic(auto)]

pub mod counted;
pub mod lines;
pub mod run;
pub mod text;

pub use run::run_text;
