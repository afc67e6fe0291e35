//! What lines of a template read can be read where the terms of its effect can, for any machine.
#![tactic(auto)]

pub mod laws;
