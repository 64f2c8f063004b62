//! The report of a file's commands, each in a line, and of how the file ends.
ghost use Rattle.std.specs.Prelude.{◌≡◌, ◌<◌, ◌≤◌, ◌^◌, ◌++◌, List, ℕ, length, drop, IsSome, OnOk};
ghost use Rattle.snss_frames.specs.Frame.{Frame};
ghost use Rattle.snss_frames.specs.Reading.{Reads};
ghost use Rattle.session_disk.specs.Moments.{bytes_at};
ghost use Rattle.report_lines.specs.Reports.{Adds};
ghost use Rattle.file_reports.specs.Faults.{FileReportHasCause};
ghost use Rattle.file_reports.specs.FileReading.{FileReading, IsReading};
ghost use Rattle.file_reports.specs.FileTexts.{show_text, last_line};
ghost use Rattle.file_reports.specs.Lines.{frame_line, frame_lines};

use crate::ending::send_ending;
use crate::fault::FileReportFault;
use crate::head::send_head;
use crate::numbers::put_decimal;
use crate::tables::shape_of;
use file_reading::{FileHead, FrameReader, read_head};
use payload_words::{put_number, put_words};
use report_lines::send_piece;
use session_disk::{Family, SessionDisk, Sink};
use snss_frames::FrameRef;
use std::alloc::{AllocError, Global};

/// Reports a file's commands: the line of its header, a line for each whole frame, and a line of how the file ends. A
/// frame's line has the offset at which it stands, its id, the length of its payload in bytes, and the payload in
/// words, by the table of the family. Of a file whose header isn't read it reports the header's line alone.
///
/// The file is read once, through one buffer, whatever its size. The lines are made in `waiting`, behind what waits there
/// already. They go out in whole pieces, each where a line has ended; what is left waits for the caller. It takes no other
/// memory but for what a navigation's words take. A report stops where the disk or the sink fails, or for want of memory,
/// and a prefix of it was written then.
pub fn show<K: Sink, D: SessionDisk>(
    alloc: Global,
    family: Family,
    disk: &mut D,
    stamp: u64,
    out: &mut K,
    waiting: &mut Vec<u8>,
) -> Result<(), FileReportFault>
    requires in_range { stamp < 2 ^ 63 }
    requires stands { D.modelled → IsSome ((D.history disk.old).now.standing stamp) }
    ensures report { D.modelled → (reading : FileReading) →
        IsReading (bytes_at stamp (D.history disk.old).now) reading →
        Adds (K.written out.old) (K.written out.new) waiting.old.items waiting.new.items
        (show_text family reading) result }
    ensures unchanged { D.history disk.new ≡ D.history disk.old }
    ensures cause { FileReportHasCause (D.failed disk.old) (D.failed disk.new)
        (K.faults out.old) (K.faults out.new) result }
{
    let head = read_head(disk, stamp)?;
    send_head(head, out, waiting)?;
    match head {
        FileHead::Short(_) | FileHead::Foreign(_) => Ok(()),
        FileHead::Known(_) => send_commands(alloc, family, disk, stamp, out, waiting),
    }
}

// The lines behind the header's.
fn send_commands<K: Sink, D: SessionDisk>(
    alloc: Global,
    family: Family,
    disk: &mut D,
    stamp: u64,
    out: &mut K,
    waiting: &mut Vec<u8>,
) -> Result<(), FileReportFault>
    requires in_range { stamp < 2 ^ 63 }
    requires stands { D.modelled → IsSome ((D.history disk.old).now.standing stamp) }
    requires headed { D.modelled → 8 ≤ length (bytes_at stamp (D.history disk.old).now) }
    ensures report { D.modelled → (frames : List Frame) (rest : List ℕ) →
        Reads (drop 8 (bytes_at stamp (D.history disk.old).now)) frames rest →
        Adds (K.written out.old) (K.written out.new) waiting.old.items waiting.new.items
        (frame_lines family 8 frames ++ last_line frames rest) result }
    ensures unchanged { D.history disk.new ≡ D.history disk.old }
    ensures cause { FileReportHasCause (D.failed disk.old) (D.failed disk.new)
        (K.faults out.old) (K.faults out.new) result }
{
    let mut reader = FrameReader::new(alloc, disk, stamp)?;
    while let Some(frame) = reader.next(disk)? {
        put_frame_line(alloc, family, &frame, waiting)?;
        send_piece(out, waiting)?;
    }
    send_ending(reader.ending(), out, waiting)?;
    Ok(())
}

#[tactic(auto, unfolding(crate::specs::Lines::frame_line))]
fn put_frame_line(
    alloc: Global,
    family: Family,
    frame: &FrameRef,
    out: &mut Vec<u8>,
) -> Result<(), AllocError>
    requires { length frame.now.payload.now ≤ 65534 }
    ensures { OnOk result (out.new.items ≡ out.old.items
        ++ frame_line family frame.now.at (record { id = frame.now.id; payload = frame.now.payload.now })) }
{
    let shape = shape_of(family, frame.id);
    put_decimal(frame.at, out)?;
    put_number(frame.id as u64, out)?;
    put_number(frame.payload.len() as u64, out)?;
    put_words(alloc, shape, frame.id, frame.payload, out)?;
    out.extend_from_slice(b"\n")?;
    Ok(())
}
