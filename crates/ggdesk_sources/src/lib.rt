// Rows about C sources and trees: what is read of a source, its layout and its needs, its trees and what both do, and trees of a row's
// own. Each module answers the rows of one subject.
#![tactic(auto)]

pub mod leaves;
pub mod lowering;
pub mod marks;
pub mod notation;
pub mod programs;
pub mod runs;
pub mod syntax;
pub mod trees;
pub mod types;
