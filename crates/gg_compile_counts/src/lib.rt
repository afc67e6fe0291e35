//! How many labels lowering takes for a program: few for each phrase, and the tokens of a unit bound its phrases.
#![tactic(auto)]

pub mod laws;
