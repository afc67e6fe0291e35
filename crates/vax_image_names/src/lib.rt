//! The labels of a code, and whether the code can be run.
#![tactic(auto)]

pub mod labels;
pub mod linking;
pub mod names;
pub mod size;
pub mod table;

pub use labels::Labels;
pub use linking::link;
