//! A disk that holds the session files of one family, by their stamps.
ghost use Rattle.std.specs.Prelude.{◌≡◌, ℕ, ◌<◌, ◌≤◌, ◌^◌, length, take, IfOk, IfSome, IsSome, IsNone, IsErrOf};
ghost use Rattle.session_disk.specs.declared.failure.DiskError.TheVariants.{Failed};
ghost use Rattle.session_disk.specs.Causes.{DiskHasCause};
ghost use Rattle.session_disk.specs.Moments.{Moment, after_create, after_append, after_sync, after_remove, after_settle, after_tell, bytes_at, IsBytes, IsReadAt, IsNewestBelow};
ghost use Rattle.session_disk.specs.Histories.{History, Changes};

use crate::failure::DiskError;

/// The length that no file passes, 2^62.
pub(crate) const LONGEST: u64 = 1 << 62;

/// Files by stamp. A stamp is at most 2^63 - 1, and a call that takes one names a file that stands.
///
/// A crash keeps of each file its synced bytes and any prefix of what was appended later. A file whose
/// name isn't settled may be missing afterwards, and a removed one may stand again until names are settled.
pub trait SessionDisk: Drop {
    /// Has a value where the clauses on content hold.
    ghost modelled: { Type 0 };

    /// The moments of the disk up to now.
    ghost history: { Self → History };

    /// How often a call has failed; it stops at 2^64 - 1.
    ghost failed: { Self → ℕ };

    /// The count of failures.
    fn failures(&self) -> u64
        ensures { result ≡ failed self.now };

    /// The greatest stamp, of those below the bound where one is given.
    fn newest_below(&mut self, below: Option<u64>) -> Result<Option<u64>, DiskError>
        ensures in_range { IfOk result (λ newest. IfSome newest (λ stamp. stamp < 2 ^ 63)) }
        ensures within { IfOk result (λ newest. IfSome newest (λ stamp. IfSome below (λ bound. stamp < bound))) }
        ensures newest { modelled → IfOk result (IsNewestBelow (history self.old).now.standing below) }
        ensures unchanged { history self.new ≡ history self.old }
        ensures cause { DiskHasCause (failed self.old) (failed self.new) result };

    /// The length of a file in bytes, at most 2^62.
    fn length(&mut self, stamp: u64) -> Result<u64, DiskError>
        requires in_range { stamp < 2 ^ 63 }
        requires stands { modelled → IsSome ((history self.old).now.standing stamp) }
        ensures bound { IfOk result (λ n. n ≤ 2 ^ 62) }
        ensures value { modelled → IfOk result (λ n. n ≡ length (bytes_at stamp (history self.old).now)) }
        ensures unchanged { history self.new ≡ history self.old }
        ensures cause { DiskHasCause (failed self.old) (failed self.new) result };

    /// Reads from an offset on into the start of the buffer and answers how many bytes came, 0 at the end.
    fn read_at(&mut self, stamp: u64, offset: u64, into: &mut [u8]) -> Result<usize, DiskError>
        requires in_range { stamp < 2 ^ 63 }
        requires stands { modelled → IsSome ((history self.old).now.standing stamp) }
        ensures bound { IfOk result (λ n. n ≤ length into.old) }
        ensures bytes { modelled →
            IfOk result (λ n. IsReadAt (bytes_at stamp (history self.old).now) offset n into.new) }
        ensures range { modelled → IfOk result (λ _. IsBytes (bytes_at stamp (history self.old).now)) }
        ensures unchanged { history self.new ≡ history self.old }
        ensures cause { DiskHasCause (failed self.old) (failed self.new) result };

    /// Makes an empty file whose name isn't settled. No file has this stamp yet.
    fn create(&mut self, stamp: u64) -> Result<(), DiskError>
        requires in_range { stamp < 2 ^ 63 }
        requires absent { modelled → IsNone ((history self.old).now.standing stamp) }
        ensures changes { modelled → Changes (history self.old) (history self.new) result 0 (λ _. after_create stamp) }
        ensures cause { DiskHasCause (failed self.old) (failed self.new) result };

    /// Adds bytes at a file's end. After a failure any prefix of them may have been added.
    fn append(&mut self, stamp: u64, bytes: &[u8]) -> Result<(), DiskError>
        requires in_range { stamp < 2 ^ 63 }
        requires stands { modelled → IsSome ((history self.old).now.standing stamp) }
        ensures changes { modelled → Changes (history self.old) (history self.new) result
            (length bytes.now) (λ n. after_append stamp (take n bytes.now)) }
        ensures cause { DiskHasCause (failed self.old) (failed self.new) result };

    /// Makes a file's bytes safe. After a failure some prefix of them may be.
    fn sync(&mut self, stamp: u64) -> Result<(), DiskError>
        requires in_range { stamp < 2 ^ 63 }
        requires stands { modelled → IsSome ((history self.old).now.standing stamp) }
        ensures changes { modelled → Changes (history self.old) (history self.new) result
            (length (bytes_at stamp (history self.old).now)) (after_sync stamp) }
        ensures cause { DiskHasCause (failed self.old) (failed self.new) result };

    /// Removes a file.
    fn remove(&mut self, stamp: u64) -> Result<(), DiskError>
        requires in_range { stamp < 2 ^ 63 }
        requires stands { modelled → IsSome ((history self.old).now.standing stamp) }
        ensures changes { modelled → Changes (history self.old) (history self.new) result 0 (λ _. after_remove stamp) }
        ensures cause { DiskHasCause (failed self.old) (failed self.new) result };

    /// Makes the names of files and the removals safe.
    fn settle(&mut self) -> Result<(), DiskError>
        ensures changes { modelled → Changes (history self.old) (history self.new) result 0 (λ _. after_settle) }
        ensures cause { DiskHasCause (failed self.old) (failed self.new) result };

    /// Records the number of commands that are acknowledged. It is refused for want of memory alone.
    fn tell(&mut self, n: u64) -> Result<(), DiskError>
        ensures changes { modelled → Changes (history self.old) (history self.new) result 0 (λ _. after_tell n) }
        ensures memory_alone { IsErrOf result DiskError.Failed → ⊥ }
        ensures cause { DiskHasCause (failed self.old) (failed self.new) result };
}
