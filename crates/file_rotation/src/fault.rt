//! Why a call over the files of a disk is refused.
ghost use Rattle.std.specs.Prelude.{◌≡◌};
ghost use Rattle.file_rotation.specs.declared.fault.RotateFault.TheVariants.{Memory};
ghost use Rattle.file_rotation.specs.Faults.{fault_of};

use session_disk::DiskError;
use std::alloc::AllocError;
use thiserror::Error;

/// Why a call over the files of a disk was refused.
#[derive(Clone, Copy, Debug, PartialEq, Eq, Error)]
pub enum RotateFault {
    /// The disk failed, and its count of failures rose.
    #[error("the disk failed")]
    Disk,
    #[error("memory ran out")]
    Memory,
}

impl From<DiskError> for RotateFault {
    ghost from_gives = { λ error fault. fault ≡ fault_of error };

    fn from(error: DiskError) -> Self {
        match error {
            DiskError::Failed => RotateFault::Disk,
            DiskError::Memory => RotateFault::Memory,
        }
    }
}

impl From<AllocError> for RotateFault {
    ghost from_gives = { λ _ fault. fault ≡ Memory };

    fn from(_: AllocError) -> Self {
        RotateFault::Memory
    }
}
