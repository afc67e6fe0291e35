// Why two codes are not shown to do the same.
ghost use Rattle.std.specs.Prelude.{◌≡◌};

use gg_base::NoMemory;
use std::alloc::{AllocError, AllocFailed};
use vax_pairs_walk::gap::Gap;

/// Why it isn't shown: memory ran out, or something isn't seen to be the same.
#[derive(Clone, Copy, Debug, PartialEq, Eq)]
pub enum Doubt {
    NoMemory,
    NotShown,
}

impl From<NoMemory> for Doubt {
    fn from(_: NoMemory) -> Self {
        Doubt::NoMemory
    }
}

impl From<AllocError> for Doubt {
    fn from(_: AllocError) -> Self {
        Doubt::NoMemory
    }
}

impl<T: Drop> From<AllocFailed<T>> for Doubt {
    fn from(_: AllocFailed<T>) -> Self {
        Doubt::NoMemory
    }
}

impl From<Gap> for Doubt {
    fn from(gap: Gap) -> Self {
        match gap {
            Gap::NoMemory => Doubt::NoMemory,
            Gap::NoTree => Doubt::NotShown,
        }
    }
}
