//! The phrases of a C source.
#![tactic(auto)]

mod declarations;
mod ends;
mod expressions;
pub mod fault;
mod level;
mod statements;
mod take;
mod types;
mod units;

pub use c_phrases::{Ast, operator, tree};
pub use fault::SyntaxFault;
pub use units::parse;
