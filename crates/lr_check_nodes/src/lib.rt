//! The nodes of samples as they are made, each behind its kids; and what a root reaches of them.
#![tactic(auto)]

mod growing;
mod pruning;

pub use growing::Growing;
pub use pruning::prune;
