//! The least forms of a text section's branches, found window by window.
#![tactic(auto)]

pub mod least;
pub mod window;

pub use least::least_forms;
