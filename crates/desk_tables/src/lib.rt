//! Tables of a description to be looked at: item sets drawn, also as a graph for Graphviz, and parses of trees step by step.
#![tactic(auto)]

pub mod dot;
pub mod drawing;
pub mod parse;
pub mod words;

pub use dot::put_dot;
pub use drawing::{Drawing, START};
pub use parse::{Entry, Parse, Step};
pub use words::{Tree, Word, token_named, tree_of};
