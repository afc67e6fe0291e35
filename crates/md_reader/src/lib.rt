//! Machine descriptions: reading one, with the first wrong line and what is wrong there.
#![tactic(auto)]

mod description;
mod faults;
mod forms;
mod patterns;
mod reader;
mod reading;
mod rows;
mod symbols;
mod types;

pub use description::Description;
pub use faults::{DescFault, DescKind};
pub use md_reader_pieces::{Line, Piece, Pieces};
pub use md_reader_text::is_word;
pub use patterns::kind_at;
pub use reader::{read_description, read_description_for};
pub use rows::{is_nothing, same_size};
pub use types::{Class, Give, Kind, Lines, Restriction, Restrictions, Rule, Sym, Symbols};
