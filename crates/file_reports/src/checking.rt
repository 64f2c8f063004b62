//! The report of what a file has: how many commands, how many of them are raw, where the marker stands, and how the
//! file ends.
ghost use Rattle.std.specs.Prelude.{◌≡◌, ◌<◌, ◌^◌, ◌++◌, IsSome, OnOk};
ghost use Rattle.session_disk.specs.Moments.{bytes_at};
ghost use Rattle.report_lines.specs.Reports.{Adds, ReportHasCause};
ghost use Rattle.file_reports.specs.Faults.{FileReportHasCause};
ghost use Rattle.file_reports.specs.FileReading.{FileReading, IsReading};
ghost use Rattle.file_reports.specs.FileTexts.{check_text};
ghost use Rattle.file_reports.specs.Lines.{ending_line, tally_lines, marker_line};

use crate::ending::send_ending;
use crate::fault::FileReportFault;
use crate::head::send_head;
use crate::tally::Tally;
use file_reading::{FileHead, read_head};
use payload_words::put_number;
use report_lines::ReportFault;
use session_disk::{Family, SessionDisk, Sink};
use snss_frames::Ending;
use std::alloc::{AllocError, Global};

/// Reports what a file has: the line of its header, how many whole frames follow and how many of them are raw by the
/// table of the family, the offset of the first marker, and how the file ends. A marker is counted as a frame, but is
/// never raw. Of a file whose header isn't read it reports the header's line alone.
///
/// The file is read once, through one buffer, whatever its size. The lines are made in `waiting`, behind what waits there
/// already. They go out in whole pieces; what is left waits for the caller. A report stops where the disk or the sink
/// fails, or for want of memory, and a prefix of it was written then.
pub fn check<K: Sink, D: SessionDisk>(
    alloc: Global,
    family: Family,
    disk: &mut D,
    stamp: u64,
    out: &mut K,
    waiting: &mut Vec<u8>,
) -> Result<(), FileReportFault>
    requires in_range { stamp < 2 ^ 63 }
    requires stands { D.modelled → IsSome ((D.history disk.old).now.standing stamp) }
    ensures report { D.modelled → (reading : FileReading) →
        IsReading (bytes_at stamp (D.history disk.old).now) reading →
        Adds (K.written out.old) (K.written out.new) waiting.old.items waiting.new.items
        (check_text family reading) result }
    ensures unchanged { D.history disk.new ≡ D.history disk.old }
    ensures cause { FileReportHasCause (D.failed disk.old) (D.failed disk.new)
        (K.faults out.old) (K.faults out.new) result }
{
    let head = read_head(disk, stamp)?;
    send_head(head, out, waiting)?;
    match head {
        FileHead::Short(_) | FileHead::Foreign(_) => Ok(()),
        FileHead::Known(_) => {
            let (tally, ending) = Tally::of(alloc, family, disk, stamp)?;
            send_counts(&tally, ending, out, waiting)?;
            Ok(())
        }
    }
}

// The lines behind the header's.
fn send_counts<K: Sink>(
    tally: &Tally,
    ending: Ending,
    out: &mut K,
    waiting: &mut Vec<u8>,
) -> Result<(), ReportFault>
    ensures report { Adds (K.written out.old) (K.written out.new) waiting.old.items waiting.new.items
        (tally_lines tally.now ++ ending_line ending) result }
    ensures cause { ReportHasCause (K.faults out.old) (K.faults out.new) result }
{
    put_tally_lines(tally, waiting)?;
    send_ending(ending, out, waiting)
}

fn put_tally_lines(tally: &Tally, out: &mut Vec<u8>) -> Result<(), AllocError>
    ensures { OnOk result (out.new.items ≡ out.old.items ++ tally_lines tally.now) }
{
    out.extend_from_slice(b"commands")?;
    put_number(tally.commands, out)?;
    out.extend_from_slice(b" raw")?;
    put_number(tally.raw, out)?;
    out.extend_from_slice(b"\n")?;
    put_marker_line(tally.marker, out)?;
    Ok(())
}

fn put_marker_line(marker: Option<u64>, out: &mut Vec<u8>) -> Result<(), AllocError>
    ensures { OnOk result (out.new.items ≡ out.old.items ++ marker_line marker) }
{
    match marker {
        Some(at) => {
            out.extend_from_slice(b"marker at")?;
            put_number(at, out)?;
            out.extend_from_slice(b"\n")?;
        }
        None => out.extend_from_slice(b"marker none\n")?,
    }
    Ok(())
}
