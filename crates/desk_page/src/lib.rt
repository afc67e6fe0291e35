//! What the desk's commands write: a place in a text under its line, a fault with its sentences, and columns side by side.
#![tactic(auto)]

pub mod advice;
pub mod columns;
pub mod shown;
pub mod wrapped;

pub use advice::{Advice, advice_of, put_advice, put_words};
pub use columns::{Columns, put_columns};
pub use shown::{Shown, line_at, part_of, put_place};
pub use wrapped::{put_wrapped, put_wrapped_at, word_column};
