//! Why a machine description is refused: its first wrong line, the tree that stops its parse, and each rule that isn't shown.
#![tactic(auto)]

pub mod causes;
pub mod rules;
pub mod stops;
pub mod why;

pub use why::put_why_description;
