//! A source's statements, their trees with the rules that these take, and their code, side by side.
#![tactic(auto)]

pub mod code;
pub mod places;
pub mod rows;
pub mod units;

pub use code::put_code;
