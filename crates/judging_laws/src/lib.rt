//! What holds of a template, of any machine, because it holds of each line that is judged.
#![tactic(auto)]

pub mod laws;
