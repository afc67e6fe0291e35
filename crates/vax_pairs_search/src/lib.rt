//! A search for a certificate of two codes: cuts at which facts hold of the registers of both machines.
#![tactic(auto)]

pub mod known;
pub mod searching;
pub mod stops;

pub use searching::search;
pub use stops::Heads;
