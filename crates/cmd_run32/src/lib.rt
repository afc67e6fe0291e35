// The command `run32 A N`: reads an assembly text of L32 and the input, and runs the text's code for at most N steps.
#![tactic(auto)]

pub mod counted;
pub mod lines;
pub mod run;
pub mod text;

pub use run::run_text32;
