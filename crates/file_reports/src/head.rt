//! The line of a file's head, with which a report on the file begins.
ghost use Rattle.std.specs.Prelude.{◌≡◌, ◌++◌, OnOk};
ghost use Rattle.report_lines.specs.Reports.{Adds, ReportHasCause};
ghost use Rattle.file_reports.specs.FileKinds.{head_words};
ghost use Rattle.file_reports.specs.Lines.{head_line};

use crate::kind::{put_fault, put_short};
use file_reading::FileHead;
use report_lines::{ReportFault, send_piece};
use session_disk::Sink;
use snss_frames::Version;
use std::alloc::AllocError;

/// Makes the head's line.
pub(crate) fn send_head<K: Sink>(
    head: FileHead,
    out: &mut K,
    waiting: &mut Vec<u8>,
) -> Result<(), ReportFault>
    ensures report { Adds (K.written out.old) (K.written out.new) waiting.old.items waiting.new.items
        (head_line head) result }
    ensures cause { ReportHasCause (K.faults out.old) (K.faults out.new) result }
{
    put_head_line(head, waiting)?;
    send_piece(out, waiting)?;
    Ok(())
}

fn put_head_line(head: FileHead, out: &mut Vec<u8>) -> Result<(), AllocError>
    ensures { OnOk result (out.new.items ≡ out.old.items ++ head_line head) }
{
    out.extend_from_slice(b"header ")?;
    put_head(head, out)?;
    out.extend_from_slice(b"\n")?;
    Ok(())
}

fn put_head(head: FileHead, out: &mut Vec<u8>) -> Result<(), AllocError>
    ensures { OnOk result (out.new.items ≡ out.old.items ++ head_words head) }
{
    match head {
        FileHead::Short(length) => put_short(length, out)?,
        FileHead::Foreign(fault) => put_fault(fault, out)?,
        FileHead::Known(Version::One) => out.extend_from_slice(b"v1")?,
        FileHead::Known(Version::Three) => out.extend_from_slice(b"v3")?,
    }
    Ok(())
}
