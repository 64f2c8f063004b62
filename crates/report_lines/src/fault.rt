//! Why a report stops.
ghost use Rattle.std.specs.Prelude.{◌≡◌};
ghost use Rattle.report_lines.specs.declared.fault.ReportFault.TheVariants.{Memory, Write};

use session_disk::Failed;
use std::alloc::AllocError;
use thiserror::Error;

/// Why a report stopped before its end.
#[derive(Clone, Copy, Debug, PartialEq, Eq, Error)]
pub enum ReportFault {
    /// The sink failed, and its count of faults rose.
    #[error("the output can't be written")]
    Write,
    #[error("memory ran out")]
    Memory,
}

impl From<Failed> for ReportFault {
    ghost from_gives = { λ _ fault. fault ≡ Write };

    fn from(_: Failed) -> Self {
        ReportFault::Write
    }
}

impl From<AllocError> for ReportFault {
    ghost from_gives = { λ _ fault. fault ≡ Memory };

    fn from(_: AllocError) -> Self {
        ReportFault::Memory
    }
}
