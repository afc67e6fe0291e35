//! Whether all that was found of places and sums has a flaw, and where: a token that isn't shifted, a list
//! at which some answers take nothing, or reductions without end.
#![tactic(auto)]

mod alone;
mod calm;
mod circles;
mod deciding;
mod gaps;
mod held;
mod turning;

pub use circles::find_circle;
pub use deciding::{Decision, decide, find_flaw};
pub use gaps::{find_dead, find_gap};
