//! Changes of code of which nothing is known, as passes: what they make is taken where it is shown to behave alike.
#![tactic(auto)]

pub mod change;
pub mod copying;
pub mod functions;
pub mod judging;
pub mod sameness;
pub mod validated;

pub use change::Change;
pub use copying::{copy_code, copy_instr, copy_item};
pub use judging::{Verdict, judge};
pub use validated::Validated;
