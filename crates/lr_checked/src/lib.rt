//! Tables by which no tree blocks the parser or makes it turn for ever, and why others are refused.
#![tactic(auto)]

mod checking;
mod laws;
mod lines;

pub use checking::{CheckFault, Checked, check};
pub use laws::{no_fault_is_enough, parses_accept};
pub use lines::sample_lines;
