//! The types of C texts: each unit's program with its types and its layout, or its first fault.
#![tactic(auto)]

pub mod program;

pub use program::{Program, check};
