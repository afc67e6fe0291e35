//! What C names stand for, block by block, and the objects of the data area while they are laid out.
#![tactic(auto)]

pub mod block;
pub mod contents;
pub mod data;
pub mod entry;
pub mod scope;
pub mod stack;

pub use block::Block;
pub use contents::Contents;
pub use data::Data;
pub use entry::{Entry, Signature};
pub use scope::Blocks;
pub use stack::lay_stack;
