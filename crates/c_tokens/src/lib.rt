//! The tokens of a C source.
#![tactic(auto)]

mod escapes;
pub mod laws;
mod letters;
pub mod marks;
mod numbers;
mod pieces;
mod reader;
pub mod token;
pub mod words;

pub use marks::Mark;
pub use reader::{place_of, tokens};
pub use token::{Spanned, Token, TokenFault, TokenKind};
pub use words::Key;
