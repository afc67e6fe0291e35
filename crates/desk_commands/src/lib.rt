//! The commands of the desk, by words: why a file is refused, trees, rules, item sets, parses and code.
#![tactic(auto)]

pub mod answer;
pub mod ask;
pub mod files;
pub mod help;
pub mod rows;
pub mod tell;

pub use answer::answer_words;
pub use rows::answer_desk;
