//! Where the rules of a description stand in its text, and how they read.
#![tactic(auto)]

pub mod lines;
pub mod names;

pub use lines::{line_of, rule_lines};
pub use names::{put_rule, put_symbol, put_symbols};
