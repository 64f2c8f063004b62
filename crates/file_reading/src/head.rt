//! What stands at the head of a file.
ghost use Rattle.std.specs.Prelude.{◌≡◌, ◌<◌, ◌≤◌, ◌^◌, length, IfOk, IsSome};
ghost use Rattle.session_disk.specs.Causes.{DiskHasCause};
ghost use Rattle.session_disk.specs.Moments.{IsBytes, bytes_at};
ghost use Rattle.file_reading.specs.Heads.{IfKnown, head_of};

use crate::fill::fill;
use session_disk::{DiskError, SessionDisk};
use snss_frames::{HeaderFault, Version, read_header};

/// What the first eight bytes of a file say.
#[derive(Clone, Copy, Debug, PartialEq, Eq)]
pub enum FileHead {
    /// The file has so many bytes, fewer than the eight of a header.
    Short(u64),
    /// The header is there and isn't read.
    Foreign(HeaderFault),
    /// The header of this version is there. Frames follow.
    Known(Version),
}

/// What the head of a file says. It reads eight bytes and takes no memory of its own.
pub fn read_head<D: SessionDisk>(disk: &mut D, stamp: u64) -> Result<FileHead, DiskError>
    requires in_range { stamp < 2 ^ 63 }
    requires stands { D.modelled → IsSome ((D.history disk.old).now.standing stamp) }
    ensures head { D.modelled → IfOk result (λ head. head ≡ head_of (bytes_at stamp (D.history disk.old).now)) }
    ensures range { D.modelled → IfOk result (λ head. IfKnown head (IsBytes (bytes_at stamp (D.history disk.old).now))) }
    ensures unchanged { D.history disk.new ≡ D.history disk.old }
    ensures cause { DiskHasCause (D.failed disk.old) (D.failed disk.new) result }
{
    let mut head = [0; 8];
    let filled = fill(disk, stamp, &mut head)?;
    if filled < head.len() {
        return Ok(FileHead::Short(filled as u64));
    }
    match read_header(&head) {
        Ok(version) => Ok(FileHead::Known(version)),
        Err(fault) => Ok(FileHead::Foreign(fault)),
    }
}
