// The command `check32 D`: the check of a description for L32.
#![tactic(auto)]

pub mod check;

pub use check::{L32Word, check_description32};
