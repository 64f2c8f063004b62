//! What stops an inspection before its end, and the answer that follows.
ghost use Rattle.std.specs.Prelude.{◌≡◌};
ghost use Rattle.snss_inspect.specs.Stops.{disk_status, file_status, report_status, rotate_status};

use file_reports::FileReportFault;
use file_rotation::RotateFault;
use inspect_words::InspectStatus;
use report_lines::ReportFault;
use session_disk::{DiskError, Family};

/// The answer where a call of this family's disk was refused.
pub(crate) fn disk_status(family: Family, error: DiskError) -> InspectStatus
    ensures { result ≡ disk_status family error }
{
    match error {
        DiskError::Failed => InspectStatus::Disk(family),
        DiskError::Memory => InspectStatus::Memory,
    }
}

/// The answer where a report on the files of this family's disk was stopped.
pub(crate) fn file_status(family: Family, fault: FileReportFault) -> InspectStatus
    ensures { result ≡ file_status family fault }
{
    match fault {
        FileReportFault::Disk => InspectStatus::Disk(family),
        FileReportFault::Write => InspectStatus::Write,
        FileReportFault::Memory => InspectStatus::Memory,
    }
}

/// The answer where the reading of this family's files was stopped.
pub(crate) fn rotate_status(family: Family, fault: RotateFault) -> InspectStatus
    ensures { result ≡ rotate_status family fault }
{
    match fault {
        RotateFault::Disk => InspectStatus::Disk(family),
        RotateFault::Memory => InspectStatus::Memory,
    }
}

/// The answer where a report on what was read was stopped.
pub(crate) fn report_status(fault: ReportFault) -> InspectStatus
    ensures { result ≡ report_status fault }
{
    match fault {
        ReportFault::Write => InspectStatus::Write,
        ReportFault::Memory => InspectStatus::Memory,
    }
}
