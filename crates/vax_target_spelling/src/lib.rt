//! What operands of the VAX spell: which are alike, and which registers and words of the frame they touch.
#![tactic(auto)]

pub mod laws;
