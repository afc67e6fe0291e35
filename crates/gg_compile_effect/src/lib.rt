//! The code that is selected of a tree at the VAX does what the tree does.
#![tactic(auto)]

pub mod laws;
