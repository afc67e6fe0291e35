//! Whether rows of places and lists are closed under the rules of the sets, and whether they show no fault.
#![tactic(auto)]

mod calm;
mod closing;
mod fine;
mod kids;
mod lines;
mod look;
mod pairs;

pub use look::Look;
