//! The rules of a description, each with what its pattern and its template do, its need, and how often a source's trees take it.
#![tactic(auto)]

pub mod rules;

pub use rules::put_rules;
