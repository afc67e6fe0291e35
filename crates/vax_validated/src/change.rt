// Changes of code.

use gg_base::NoMemory;
use std::alloc::Global;
use vax_core::Code;

/// A change of codes. It promises nothing: what it makes may even be no code that can be run.
pub trait Change: Drop {
    /// What it makes of a code.
    fn change(&mut self, alloc: Global, code: &Code) -> Result<Code, NoMemory>;
}
