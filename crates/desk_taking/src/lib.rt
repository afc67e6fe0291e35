//! The selection of a tree step by step: the rules that are taken, and the instructions that each adds.
#![tactic(auto)]

pub mod program;
pub mod taking;

pub use program::{Counts, counts_of};
pub use taking::{Ending, Selection, Taken, select_tree};
