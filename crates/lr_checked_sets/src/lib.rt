//! What the check of tables counts: the summaries of item sets, and the item sets. The functions do nothing; their clauses are the laws.
#![tactic(auto)]

pub mod laws;
