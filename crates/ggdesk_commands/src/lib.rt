// Rows about the commands: calls in memory, with what fails beside them, and sources on both sides.
#![tactic(auto)]

pub mod both;
pub mod commands;
pub mod fronts;
pub mod large;
pub mod passes;
pub mod world;
