// Want of memory.
ghost use Rattle.std.specs.Prelude.{◌≡◌, ◌≤◌, IfOk, OnErr};

use std::alloc::{AllocError, AllocFailed};

/// No memory was found: the one answer that has no cause in the input.
#[derive(Clone, Copy, Debug, PartialEq, Eq)]
pub struct NoMemory;

impl From<AllocError> for NoMemory {
    fn from(_: AllocError) -> Self {
        NoMemory
    }
}

impl<T: Drop> From<AllocFailed<T>> for NoMemory {
    fn from(_: AllocFailed<T>) -> Self {
        NoMemory
    }
}

/// The number on 32 bits: memory for more things than 32 bits number is not there.
pub fn number_of(number: usize) -> Result<u32, NoMemory>
    ensures number { IfOk result (λ n. n ≡ number) }
    ensures refused { OnErr result (4294967296 ≤ number) }
{
    match u32::try_from(number) {
        Ok(number) => Ok(number),
        Err(_) => Err(NoMemory),
    }
}
