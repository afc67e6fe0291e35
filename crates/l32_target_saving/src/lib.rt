//! Lines of L32 that were checked to save and to reload do so.
#![tactic(auto)]

pub mod laws;
