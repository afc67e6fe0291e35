// Why a piece of code has no tree here.
ghost use Rattle.std.specs.Prelude.{◌≡◌};

use gg_base::NoMemory;
use std::alloc::{AllocError, AllocFailed};

/// Why there is no tree.
#[derive(Clone, Copy, Debug, PartialEq, Eq)]
pub enum Gap {
    NoMemory,
    /// The piece has an operand or an instruction of which nothing is known on terms, more symbols than a byte counts, or too large a term.
    NoTree,
}

impl From<NoMemory> for Gap {
    fn from(_: NoMemory) -> Self {
        Gap::NoMemory
    }
}

impl From<AllocError> for Gap {
    fn from(_: AllocError) -> Self {
        Gap::NoMemory
    }
}

impl<T: Drop> From<AllocFailed<T>> for Gap {
    fn from(_: AllocFailed<T>) -> Self {
        Gap::NoMemory
    }
}
