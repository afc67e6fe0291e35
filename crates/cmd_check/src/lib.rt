// The command `check D`: the check of a description for the VAX.
#![tactic(auto)]

pub mod accepted;
pub mod check;
pub mod word;

pub use accepted::read_accepted;
pub use check::check_description;
pub use cmd_descriptions::Accepted;
pub use vax_target::Vax;
pub use word::VaxWord;
