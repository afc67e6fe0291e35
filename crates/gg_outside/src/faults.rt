// Why a call on the outside was refused.
ghost use Rattle.std.specs.Prelude.{◌≡◌};
ghost use Rattle.gg_outside.specs.declared.faults.FolderFault.TheVariants as folder_faults;
ghost use Rattle.gg_outside.specs.declared.faults.SinkFault.TheVariants as sink_faults;

use std::alloc::{AllocError, AllocFailed};
use thiserror::Error;

/// Why a file was not read.
#[derive(Clone, Copy, Debug, PartialEq, Eq, Error)]
pub enum FolderFault {
    /// No memory was left for its bytes.
    #[error("no memory")]
    NoMemory,
    /// There is no such file, or reading it failed.
    #[error("reading failed")]
    Failed,
    /// It is longer than the limit.
    #[error("too long")]
    TooLong,
}

impl From<AllocError> for FolderFault {
    ghost from_gives = { λ _ e. e ≡ folder_faults.NoMemory };

    fn from(_: AllocError) -> Self {
        FolderFault::NoMemory
    }
}

impl<T: Drop> From<AllocFailed<T>> for FolderFault {
    ghost from_gives = { λ _ e. e ≡ folder_faults.NoMemory };

    fn from(_: AllocFailed<T>) -> Self {
        FolderFault::NoMemory
    }
}

/// Why a sink took nothing.
#[derive(Clone, Copy, Debug, PartialEq, Eq, Error)]
pub enum SinkFault {
    /// No memory was left for the bytes.
    #[error("no memory")]
    NoMemory,
    /// Writing failed.
    #[error("writing failed")]
    Failed,
}

impl From<AllocError> for SinkFault {
    ghost from_gives = { λ _ e. e ≡ sink_faults.NoMemory };

    fn from(_: AllocError) -> Self {
        SinkFault::NoMemory
    }
}

impl<T: Drop> From<AllocFailed<T>> for SinkFault {
    ghost from_gives = { λ _ e. e ≡ sink_faults.NoMemory };

    fn from(_: AllocFailed<T>) -> Self {
        SinkFault::NoMemory
    }
}

/// A source gave nothing, as reading failed.
#[derive(Clone, Copy, Debug, PartialEq, Eq, Error)]
#[error("reading failed")]
pub struct Failed;
