//! The meaning of C programs, and runs by it, event by event.
#![tactic(auto)]

mod blocks;
mod calls;
mod current;
mod expressions;
mod flow;
mod frame;
mod machine;
mod operator;
mod places;
mod run;
mod statements;
mod store;

pub use flow::Flow;
pub use run::{SourceRun, tasks_mean};
pub use store::Spot;
