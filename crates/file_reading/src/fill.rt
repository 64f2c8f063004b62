//! A buffer filled from the start of a file.
ghost use Rattle.std.specs.Prelude.{◌≡◌, ◌<◌, ◌≤◌, ◌^◌, length, IfOk, IsSome};
ghost use Rattle.session_disk.specs.Causes.{DiskHasCause};
ghost use Rattle.session_disk.specs.Moments.{IsBytes, bytes_at};
ghost use Rattle.file_reading.specs.Filling.{IsFilled};

use session_disk::{DiskError, SessionDisk};

/// Reads a file from its start on until the buffer is full or nothing comes, and answers how many bytes came.
pub(crate) fn fill<D: SessionDisk>(
    disk: &mut D,
    stamp: u64,
    into: &mut [u8],
) -> Result<usize, DiskError>
    requires in_range { stamp < 2 ^ 63 }
    requires stands { D.modelled → IsSome ((D.history disk.old).now.standing stamp) }
    ensures bound { IfOk result (λ n. n ≤ length into.old) }
    ensures bytes { D.modelled → IfOk result (λ n. IsFilled (bytes_at stamp (D.history disk.old).now) n into.new) }
    ensures range { D.modelled → IfOk result (λ n. 0 < n → IsBytes (bytes_at stamp (D.history disk.old).now)) }
    ensures unchanged { D.history disk.new ≡ D.history disk.old }
    ensures cause { DiskHasCause (D.failed disk.old) (D.failed disk.new) result }
{
    let mut filled = 0;
    while filled < into.len() {
        match disk.read_at(stamp, filled as u64, &mut into[filled..])? {
            0 => break,
            count => filled += count,
        }
    }
    Ok(filled)
}
