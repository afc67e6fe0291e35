//! Laws of frames on L32: what calls and returns of compiled functions do.
#![tactic(auto)]

pub mod laws;
