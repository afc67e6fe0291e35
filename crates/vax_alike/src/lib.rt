//! When two codes behave alike, and what is to be shown of them for it, place by place.
#![tactic(auto)]

pub mod laws;
