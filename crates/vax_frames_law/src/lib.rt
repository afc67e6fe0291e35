//! Laws of frames: what calls and returns of compiled functions do, and that they keep r2 to r11.
#![tactic(auto)]

pub mod laws;
