//! What operands of L32 spell: which are alike, and which registers and words of the frame they touch.
#![tactic(auto)]

pub mod laws;
