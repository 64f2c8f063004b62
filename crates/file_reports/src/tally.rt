//! What is counted of the frames of a file.
ghost use Rattle.std.specs.Prelude.{◌≡◌, ◌<◌, ◌≤◌, ◌^◌, ◌-◌, List, ℕ, length, drop, IsSome, IfOk};
ghost use Rattle.snss_frames.specs.Frame.{Frame};
ghost use Rattle.snss_frames.specs.Reading.{Reads, offset_after, ending_at};
ghost use Rattle.session_disk.specs.Causes.{DiskHasCause};
ghost use Rattle.session_disk.specs.Moments.{bytes_at};
ghost use Rattle.file_reports.specs.Tallies.{tally, with_frame};

use crate::tables::fault_of;
use file_reading::FrameReader;
use session_disk::{DiskError, Family, SessionDisk};
use snss_frames::{Ending, FrameRef};
use std::alloc::Global;

/// How many whole frames a file has, how many of them are raw, and where the first marker stands.
#[derive(Clone, Copy, Debug, PartialEq, Eq)]
pub(crate) struct Tally {
    /// All whole frames, markers among them.
    pub(crate) commands: u64,
    /// Those that no row of the family's table accepts, without markers.
    pub(crate) raw: u64,
    /// The offset of the first marker in the file, in bytes.
    pub(crate) marker: Option<u64>,
}

impl Tally {
    /// Counts the frames of a file with a header, and says how the file ends. The file is read once, through one buffer.
    pub(crate) fn of<D: SessionDisk>(
        alloc: Global,
        family: Family,
        disk: &mut D,
        stamp: u64,
    ) -> Result<(Tally, Ending), DiskError>
        requires in_range { stamp < 2 ^ 63 }
        requires stands { D.modelled → IsSome ((D.history disk.old).now.standing stamp) }
        requires headed { D.modelled → 8 ≤ length (bytes_at stamp (D.history disk.old).now) }
        ensures counts { D.modelled → (frames : List Frame) (rest : List ℕ) →
            Reads (drop 8 (bytes_at stamp (D.history disk.old).now)) frames rest →
            IfOk result (λ r. (r.0 ≡ tally family frames) × (r.1 ≡ ending_at (offset_after 8 frames) rest)) }
        ensures unchanged { D.history disk.new ≡ D.history disk.old }
        ensures cause { DiskHasCause (D.failed disk.old) (D.failed disk.new) result }
    {
        let mut tally = Tally {
            commands: 0,
            raw: 0,
            marker: None,
        };
        let mut reader = FrameReader::new(alloc, disk, stamp)?;
        while let Some(frame) = reader.next(disk)? {
            tally = tally.with(family, &frame);
        }
        Ok((tally, reader.ending()))
    }

    // The tally with one frame more.
    fn with(self, family: Family, frame: &FrameRef) -> Tally
        requires payload { length frame.now.payload.now ≤ 65534 }
        requires commands { self.commands < 2 ^ 64 - 1 }
        requires raw { self.raw ≤ self.commands }
        ensures { result ≡ with_frame family self frame.now.at
            (record { id = frame.now.id; payload = frame.now.payload.now }) }
    {
        let commands = self.commands + 1;
        if frame.is_marker() {
            return Tally {
                commands,
                raw: self.raw,
                marker: self.marker.or(Some(frame.at)),
            };
        }
        Tally {
            commands,
            raw: self.raw + fault_of(family, frame.id, frame.payload).is_some() as u64,
            marker: self.marker,
        }
    }
}
