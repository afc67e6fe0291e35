//! What declarations, statements and texts of C are typed as, and which fault is their first.
#![tactic(auto)]

pub mod laws;
