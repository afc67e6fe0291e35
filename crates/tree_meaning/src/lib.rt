//! What tree programs do.
#![tactic(auto)]

mod effects;
mod frame;
pub mod laws;
mod machine;
mod progress;
mod reading;
mod run;
mod value;

pub use run::TreeRun;
pub use value::{Meaning, Value};
