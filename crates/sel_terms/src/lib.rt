//! Effects: what a rule's pattern or template does, in a normal form in which two of them are compared.
#![tactic(auto)]

mod effect;
mod known;
mod part;
mod pattern;
mod role;
mod same;
mod show;
mod stack;

pub use effect::{Act, Effect, norm_effect};
pub use known::{rule_facts, saved_facts, size_of_symbol};
pub use md_reader::{Class, Kind, Line, Rule};
pub use pattern::pattern_effect;
pub use same::{same_effect, same_size};
pub use show::show_effect;
pub use term_core::{Fact, Term, norm};
