//! The ways in which the outside refuses: it failed, it had too much to give, or memory ran out.
ghost use Rattle.std.specs.Prelude.{◌≡◌};
ghost use Rattle.session_disk.specs.declared.failure.DiskError.TheVariants.{Memory};
ghost use Rattle.session_disk.specs.declared.failure.ReadError.TheVariants as reading;

use std::alloc::{AllocError, AllocFailed};
use thiserror::Error;

/// A read or a write failed. The object's count of faults rose.
#[derive(Clone, Copy, Debug, PartialEq, Eq, Error)]
#[error("a read or a write failed")]
pub struct Failed;

/// Why a call of a disk was refused.
#[derive(Clone, Copy, Debug, PartialEq, Eq, Error)]
pub enum DiskError {
    /// The disk failed, and its count of failures rose.
    #[error("the disk failed")]
    Failed,
    /// Memory ran out, and the disk is unchanged.
    #[error("memory ran out")]
    Memory,
}

/// Why a source wasn't read to its end.
#[derive(Clone, Copy, Debug, PartialEq, Eq, Error)]
pub enum ReadError {
    /// A read failed, and the source's count of faults rose.
    #[error("a read failed")]
    Failed,
    /// It has more bytes than the limit, of which one more was read.
    #[error("there are more bytes than the limit")]
    TooLong,
    #[error("memory ran out")]
    Memory,
}

impl From<AllocError> for DiskError {
    ghost from_gives = { λ _ e. e ≡ Memory };

    fn from(_: AllocError) -> Self {
        DiskError::Memory
    }
}

impl<T: Drop> From<AllocFailed<T>> for DiskError {
    ghost from_gives = { λ _ e. e ≡ Memory };

    fn from(_: AllocFailed<T>) -> Self {
        DiskError::Memory
    }
}

impl From<AllocError> for ReadError {
    ghost from_gives = { λ _ e. e ≡ reading.Memory };

    fn from(_: AllocError) -> Self {
        ReadError::Memory
    }
}

impl<T: Drop> From<AllocFailed<T>> for ReadError {
    ghost from_gives = { λ _ e. e ≡ reading.Memory };

    fn from(_: AllocFailed<T>) -> Self {
        ReadError::Memory
    }
}
