//! An order in which places and the lists that settle there may be found. Nothing is promised of it: who
//! adds by it looks at each item, and then looks whether all is there.
#![tactic(auto)]

mod free;
mod items;
mod lists;
mod masks;
mod places;
mod plan;
mod reading;
mod rows;
mod settling;
mod steps;

pub use plan::{planned, planned_steps};
pub use steps::{Begins, Settles, Source, Step};
