//! What the lines of a template do, and the first fault in it, for any machine that judges a line.
#![tactic(auto)]

pub mod dropped;
pub mod found;
pub mod gift;
mod judge;
pub mod outcome;
pub mod step;

pub use judge::LineJudge;
