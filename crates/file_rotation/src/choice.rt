//! The choice of the session file that counts.
ghost use Rattle.std.specs.Prelude.{◌≡◌, ◌<◌, ◌≤◌, ◌^◌, ◌↔◌, ℕ, List, length, drop, IsTrue, IsSome, IfOk, IfSome, MatchOption, Contains};
ghost use Rattle.snss_frames.specs.Frame.{Frame, marker};
ghost use Rattle.snss_frames.specs.Reading.{Reads};
ghost use Rattle.session_disk.specs.Causes.{DiskHasCause};
ghost use Rattle.session_disk.specs.Moments.{bytes_at};
ghost use Rattle.session_disk.specs.Images.{as_it_reads};
ghost use Rattle.file_rotation.specs.Faults.{RotateHasCause};
ghost use Rattle.file_rotation.specs.Recovery.{IsLawful};
ghost use Rattle.file_rotation.specs.Choice.{IsChoice, IsLawfulAs};

use crate::fault::RotateFault;
use file_reading::{FileHead, FrameReader, read_head};
use session_disk::{DiskError, SessionDisk};
use snss_frames::Version;
use std::alloc::Global;

/// The chosen file: the lawful one with the greatest stamp.
#[derive(Clone, Copy, Debug, PartialEq, Eq)]
pub struct Chosen {
    pub stamp: u64,
    pub version: Version,
}

/// The chosen file of a disk, and `None` exactly where no file is lawful. Files are read from the newest on up to the
/// chosen one, each once: of one of version 1 the header alone, of one of version 3 what stands up to its marker, through
/// one buffer for a file of any size. A refusal is the disk's own failure or want of memory.
pub fn choose<D: SessionDisk>(alloc: Global, disk: &mut D) -> Result<Option<Chosen>, RotateFault>
    ensures in_range { IfOk result (λ found. IfSome found (λ chosen. chosen.stamp < 2 ^ 63)) }
    ensures chosen { D.modelled → IfOk result (IsChoice (as_it_reads (D.history disk.old).now)) }
    ensures unchanged { D.history disk.new ≡ D.history disk.old }
    ensures cause { RotateHasCause (D.failed disk.old) (D.failed disk.new) result }
{
    let mut next = disk.newest_below(None)?;
    while let Some(stamp) = next {
        if let Some(version) = lawful_version(alloc, disk, stamp)? {
            return Ok(Some(Chosen { stamp, version }));
        }
        next = disk.newest_below(Some(stamp))?;
    }
    Ok(None)
}

// The version of a lawful file, and `None` exactly for a file that isn't lawful.
fn lawful_version<D: SessionDisk>(
    alloc: Global,
    disk: &mut D,
    stamp: u64,
) -> Result<Option<Version>, DiskError>
    requires in_range { stamp < 2 ^ 63 }
    requires stands { D.modelled → IsSome ((D.history disk.old).now.standing stamp) }
    ensures found { D.modelled → IfOk result (λ found. MatchOption found
        ((frames : List Frame) → IsLawful (bytes_at stamp (D.history disk.old).now) frames → ⊥)
        (IsLawfulAs (bytes_at stamp (D.history disk.old).now))) }
    ensures unchanged { D.history disk.new ≡ D.history disk.old }
    ensures cause { DiskHasCause (D.failed disk.old) (D.failed disk.new) result }
{
    match read_head(disk, stamp)? {
        FileHead::Known(Version::One) => Ok(Some(Version::One)),
        FileHead::Known(Version::Three) => {
            if is_marked(alloc, disk, stamp)? {
                return Ok(Some(Version::Three));
            }
            Ok(None)
        }
        FileHead::Short(_) | FileHead::Foreign(_) => Ok(None),
    }
}

/// Whether the marker is among the whole frames of a file with a header. It reads up to the marker, through one buffer.
pub fn is_marked<D: SessionDisk>(alloc: Global, disk: &mut D, stamp: u64) -> Result<bool, DiskError>
    requires in_range { stamp < 2 ^ 63 }
    requires stands { D.modelled → IsSome ((D.history disk.old).now.standing stamp) }
    requires headed { D.modelled → 8 ≤ length (bytes_at stamp (D.history disk.old).now) }
    ensures marked { D.modelled → IfOk result (λ marked. (frames : List Frame) (rest : List ℕ) →
        Reads (drop 8 (bytes_at stamp (D.history disk.old).now)) frames rest →
        (IsTrue marked ↔ Contains frames marker)) }
    ensures unchanged { D.history disk.new ≡ D.history disk.old }
    ensures cause { DiskHasCause (D.failed disk.old) (D.failed disk.new) result }
{
    let mut reader = FrameReader::new(alloc, disk, stamp)?;
    while let Some(frame) = reader.next(disk)? {
        if frame.is_marker() {
            return Ok(true);
        }
    }
    Ok(false)
}
