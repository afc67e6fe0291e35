//! C sources: from bytes to a program with its types and its layout.
#![tactic(auto)]

pub mod source;

pub use c_typed_check::{Program, check};
pub use source::{SourceFault, SourceKind, read_source};
