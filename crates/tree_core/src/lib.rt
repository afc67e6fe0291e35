//! Typed trees in prefix order: tokens, sorts, leaves, trees and tree programs.
#![tactic(auto)]

pub mod area;
mod items;
mod labels;
mod names;
mod numbers;
mod objects;
mod program;
pub mod spelling;
mod token;
mod tree;
mod typing;
mod valid;
mod window;

pub use program::{
    Leaves, Link, Links, LocalNumbers, Object, Objects, TreeFn, TreeFns, TreeItem, TreeItems,
    TreeProgram,
};
pub use token::{AttKind, Sort, TOKENS, Tok, tokens};
pub use tree::{Att, Leaf, Tree, linear, show_tree};
pub use typing::{trees_grow_back, typed};
pub use valid::args_of;
