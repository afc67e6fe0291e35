//! Nodes for the trees of what was found, with the answers that lead each tree to its list; and the samples of its flaws.
#![tactic(auto)]

mod asked;
mod drawing;
mod rising;
mod sampling;
mod turning;

pub use sampling::draw;
