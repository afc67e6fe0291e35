//! Instructions whose run touches nothing but the data area and what they spell themselves.
#![tactic(auto)]

pub mod laws;
