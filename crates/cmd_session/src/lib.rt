// What the commands share: their words, statuses and lines, an input read whole, outputs written whole, and a run that is
// written while it goes on.
#![tactic(auto)]

pub mod input;
pub mod lines;
pub mod output;
pub mod running;
pub mod status;
pub mod words;

pub use input::{InputFault, read_all};
pub use output::{no_memory, refuse, refuse_with, write_all};
pub use running::{Moment, Run, tell_run, write_run};
pub use status::Status;
pub use words::{Command, command_of};
