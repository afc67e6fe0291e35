//! Trees from a typed C program: effects go into temporaries, so that every tree is pure but for its root.
#![tactic(auto)]

mod expression;
mod lowerer;
mod program;
mod statement;

pub use program::lower;
