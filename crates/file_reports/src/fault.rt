//! Why a report on a file stops.
ghost use Rattle.std.specs.Prelude.{◌≡◌};
ghost use Rattle.file_reports.specs.declared.fault.FileReportFault.TheVariants.{Memory, Write};
ghost use Rattle.file_reports.specs.Faults.{of_disk, of_report};

use report_lines::ReportFault;
use session_disk::{DiskError, Failed};
use std::alloc::AllocError;
use thiserror::Error;

/// Why a report on files stopped before its end.
#[derive(Clone, Copy, Debug, PartialEq, Eq, Error)]
pub enum FileReportFault {
    /// The disk failed, and its count of failures rose.
    #[error("the disk failed")]
    Disk,
    /// The sink failed, and its count of faults rose.
    #[error("the output can't be written")]
    Write,
    #[error("memory ran out")]
    Memory,
}

impl From<DiskError> for FileReportFault {
    ghost from_gives = { λ error fault. fault ≡ of_disk error };

    fn from(error: DiskError) -> Self {
        match error {
            DiskError::Failed => FileReportFault::Disk,
            DiskError::Memory => FileReportFault::Memory,
        }
    }
}

impl From<ReportFault> for FileReportFault {
    ghost from_gives = { λ error fault. fault ≡ of_report error };

    fn from(error: ReportFault) -> Self {
        match error {
            ReportFault::Write => FileReportFault::Write,
            ReportFault::Memory => FileReportFault::Memory,
        }
    }
}

impl From<Failed> for FileReportFault {
    ghost from_gives = { λ _ fault. fault ≡ Write };

    fn from(_: Failed) -> Self {
        FileReportFault::Write
    }
}

impl From<AllocError> for FileReportFault {
    ghost from_gives = { λ _ fault. fault ≡ Memory };

    fn from(_: AllocError) -> Self {
        FileReportFault::Memory
    }
}
