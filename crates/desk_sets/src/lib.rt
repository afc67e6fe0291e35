//! Item sets of a description, for reading and for Graphviz, and the parse of trees step by step.
#![tactic(auto)]

pub mod parse;
pub mod sets;

pub use desk_tables::{Word, put_dot};
pub use parse::{put_parse, put_parses, put_stop};
pub use sets::put_item_sets;
