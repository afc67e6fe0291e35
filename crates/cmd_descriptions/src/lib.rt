// Machine descriptions in files, for any machine: reads one, builds and checks its tables, and shows its rules.
#![tactic(auto)]

pub mod accepted;
pub mod check;
pub mod description;
pub mod lines;
pub mod rules;
pub mod stopping;
pub mod tables;
pub mod target_word;

pub use accepted::read_accepted_for;
pub use check::check_for;
pub use gg_accepted::Accepted;
pub use target_word::TargetWord;
