//! A report on one file of a disk.
ghost use Rattle.std.specs.Prelude.{◌≡◌, ◌++◌, ◌≤◌, ◌<◌, ◌^◌, IsSome, IfOk, IfErr, OnOk};
ghost use Rattle.session_disk.specs.Causes.{DiskHasCause, Rose};
ghost use Rattle.session_disk.specs.Moments.{bytes_at};
ghost use Rattle.session_disk.specs.Images.{as_it_reads};
ghost use Rattle.file_reports.specs.Faults.{FileReportHasCause};
ghost use Rattle.file_reports.specs.FileReading.{FileReading, IsReading};
ghost use Rattle.report_lines.specs.Reports.{Adds};
ghost use Rattle.inspect_words.specs.Outcome.{no_stamp_line};
ghost use Rattle.snss_inspect.specs.Answers.{EndsBy, StopsBy};
ghost use Rattle.snss_inspect.specs.Verdicts.{IsFileVerdict, IsThere, Verdict, file_text};

use crate::stops::{disk_status, file_status};
use file_reports::{FileReportFault, check, show};
use inspect_words::{FileReport, InspectStatus, no_stamp_line};
use session_disk::{DiskError, Family, SessionDisk, Sink};
use std::alloc::{AllocError, Global};

/// Adds the report on the file under a stamp, or the line that says that none stands there. It answers which of the two
/// it was. A file of any size is read through one buffer.
pub(crate) fn put_file<K: Sink, D: SessionDisk>(
    alloc: Global,
    report: FileReport,
    family: Family,
    stamp: u64,
    disk: &mut D,
    out: &mut K,
    waiting: &mut Vec<u8>,
) -> Result<InspectStatus, InspectStatus>
    requires { stamp < 2 ^ 63 }
    ensures report { D.modelled → (v : Verdict) →
        IsFileVerdict report family stamp (as_it_reads (D.history disk.old).now stamp) v →
        Adds (K.written out.old) (K.written out.new) waiting.old.items waiting.new.items v.text result
        × IfOk result (λ status. status ≡ v.status) }
    ensures ends { IfOk result (EndsBy D.modelled stamp (as_it_reads (D.history disk.old).now stamp)) }
    ensures unchanged { D.history disk.new ≡ D.history disk.old }
    ensures cause { IfErr result (StopsBy (λ f. (f ≡ family) × Rose (D.failed disk.old) (D.failed disk.new))
        (Rose (K.faults out.old) (K.faults out.new))) }
    ensures later { K.faults out.old ≤ K.faults out.new }
{
    match stands(disk, stamp) {
        Ok(true) => match put_report(alloc, report, family, disk, stamp, out, waiting) {
            Ok(()) => Ok(InspectStatus::Done),
            Err(fault) => Err(file_status(family, fault)),
        },
        Ok(false) => match put_no_stamp(alloc, stamp, waiting) {
            Ok(()) => Ok(InspectStatus::NoStamp(stamp)),
            Err(_) => Err(InspectStatus::Memory),
        },
        Err(error) => Err(disk_status(family, error)),
    }
}

fn put_no_stamp(alloc: Global, stamp: u64, out: &mut Vec<u8>) -> Result<(), AllocError>
    ensures { OnOk result (out.new.items ≡ out.old.items ++ no_stamp_line stamp) }
{
    let line = no_stamp_line(alloc, stamp)?;
    out.extend_from_slice(line.as_bytes())
}

// Whether a file stands under a stamp.
fn stands<D: SessionDisk>(disk: &mut D, stamp: u64) -> Result<bool, DiskError>
    requires { stamp < 2 ^ 63 }
    ensures there { D.modelled → IfOk result (λ there. IsThere there (D.history disk.old).now stamp) }
    ensures unchanged { D.history disk.new ≡ D.history disk.old }
    ensures cause { DiskHasCause (D.failed disk.old) (D.failed disk.new) result }
{
    match disk.newest_below(Some(stamp + 1))? {
        Some(newest) => Ok(newest == stamp),
        None => Ok(false),
    }
}

// Adds the report on a file.
fn put_report<K: Sink, D: SessionDisk>(
    alloc: Global,
    report: FileReport,
    family: Family,
    disk: &mut D,
    stamp: u64,
    out: &mut K,
    waiting: &mut Vec<u8>,
) -> Result<(), FileReportFault>
    requires in_range { stamp < 2 ^ 63 }
    requires stands { D.modelled → IsSome ((D.history disk.old).now.standing stamp) }
    ensures report { D.modelled → (reading : FileReading) →
        IsReading (bytes_at stamp (D.history disk.old).now) reading →
        Adds (K.written out.old) (K.written out.new) waiting.old.items waiting.new.items
        (file_text report family reading) result }
    ensures unchanged { D.history disk.new ≡ D.history disk.old }
    ensures cause { FileReportHasCause (D.failed disk.old) (D.failed disk.new)
        (K.faults out.old) (K.faults out.new) result }
{
    match report {
        FileReport::Check => check(alloc, family, disk, stamp, out, waiting),
        FileReport::Show => show(alloc, family, disk, stamp, out, waiting),
    }
}
