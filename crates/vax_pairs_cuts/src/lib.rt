//! The certificate of two codes: a list of cuts with facts.
#![tactic(auto)]

pub mod cut;
pub mod fact;
pub mod limits;
