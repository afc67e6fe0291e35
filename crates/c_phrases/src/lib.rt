//! The phrases of a C source: as trees, and as plain data with the tokens that spell them.
#![tactic(auto)]

pub mod operator;
pub mod tree;

pub use tree::Ast;
