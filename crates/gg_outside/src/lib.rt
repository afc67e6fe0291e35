// The outside of the program by what is asked of it: a folder of files, an input, and outputs.
#![tactic(auto)]

pub mod faults;
pub mod memory;
pub mod standard;
pub mod traits;

pub use faults::{Failed, FolderFault, SinkFault};
pub use memory::{MemFile, MemFolder, MemSink, MemSource};
pub use standard::{StdFolder, StdSink, StdSource};
pub use traits::{Folder, Sink, Source};

#[cfg(test)]
mod tests;
