//! How a file ends, as a report on the file ends with it.
ghost use Rattle.std.specs.Prelude.{◌≡◌, ◌++◌, OnOk};
ghost use Rattle.report_lines.specs.Reports.{Adds, ReportHasCause};
ghost use Rattle.file_reports.specs.Lines.{ending_line};

use payload_words::put_number;
use report_lines::{ReportFault, send_piece};
use session_disk::Sink;
use snss_frames::Ending;
use std::alloc::AllocError;

/// Makes the last line.
pub(crate) fn send_ending<K: Sink>(
    ending: Ending,
    out: &mut K,
    waiting: &mut Vec<u8>,
) -> Result<(), ReportFault>
    ensures report { Adds (K.written out.old) (K.written out.new) waiting.old.items waiting.new.items
        (ending_line ending) result }
    ensures cause { ReportHasCause (K.faults out.old) (K.faults out.new) result }
{
    put_ending_line(ending, waiting)?;
    send_piece(out, waiting)?;
    Ok(())
}

fn put_ending_line(ending: Ending, out: &mut Vec<u8>) -> Result<(), AllocError>
    ensures { OnOk result (out.new.items ≡ out.old.items ++ ending_line ending) }
{
    match ending {
        Ending::Whole => out.extend_from_slice(b"ending whole\n")?,
        Ending::CutSize { at } => {
            out.extend_from_slice(b"ending cut-size")?;
            put_number(at, out)?;
            out.extend_from_slice(b"\n")?;
        }
        Ending::EmptyCommand { at } => {
            out.extend_from_slice(b"ending empty")?;
            put_number(at, out)?;
            out.extend_from_slice(b"\n")?;
        }
        Ending::CutBody { at, said, present } => {
            out.extend_from_slice(b"ending cut-body")?;
            put_number(at, out)?;
            put_number(said as u64, out)?;
            put_number(present as u64, out)?;
            out.extend_from_slice(b"\n")?;
        }
    }
    Ok(())
}
