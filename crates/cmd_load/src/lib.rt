//! The command `load D K`: the generated source of K functions, compiled by the machine description D, and both sides run.
#![tactic(auto)]

pub mod generated;
pub mod laws;
pub mod load;
pub mod sides;
pub mod summary;

pub use cmd_compile::{
    Accepted, Pass, Vax, check_description, compile_source, read_accepted, text_of,
};
pub use load::load_generated;
