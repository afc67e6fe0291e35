//! Why an assembly text can't be run.
#![tactic(auto)]

pub mod texts;

pub use texts::put_why_text;
