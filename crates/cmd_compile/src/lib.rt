// The command `compile D S`: the assembly text of a C source by a machine description.
#![tactic(auto)]

pub mod compile;
pub mod lines;
pub mod passing;
pub mod text;

pub use cmd_check::{Accepted, Vax, check_description, read_accepted};
pub use compile::compile_source;
pub use text::text_of;
pub use vax_passes::Pass;
