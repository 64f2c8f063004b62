//! The removal of the files that a fresh one replaces.
ghost use Rattle.std.specs.Prelude.{◌≡◌, ◌<◌, ◌^◌, true, false, ℕ, IfOk, OnOk, IsSome};
ghost use Rattle.session_disk.specs.Causes.{DiskHasCause};
ghost use Rattle.session_disk.specs.Histories.{Leaves};
ghost use Rattle.session_disk.specs.Moments.{bytes_at};
ghost use Rattle.file_rotation.specs.Faults.{RotateHasCause};
ghost use Rattle.file_rotation.specs.Foreign.{is_foreign};
ghost use Rattle.file_rotation.specs.Cleared.{cleared, kept_file, LeavesWithout};
ghost use Rattle.file_rotation.specs.Clearing.{PartlyCleared, TakesOwn};

use crate::fault::RotateFault;
use file_reading::{FileHead, read_head};
use session_disk::{DiskError, SessionDisk};

/// Removes each file with a smaller stamp that isn't foreign, the greatest first, then settles. After a refusal, want
/// of memory among them, some of these files may be gone. It takes no memory of its own, and reads eight bytes of
/// each file at most.
pub fn clear_older<D: SessionDisk>(disk: &mut D, stamp: u64) -> Result<(), RotateFault>
    requires { stamp < 2 ^ 63 }
    ensures ok { D.modelled → OnOk result ((D.history disk.new).now ≡ cleared stamp (D.history disk.old).now) }
    // Whatever the answer is.
    ensures told { D.modelled → (D.history disk.new).now.told ≡ (D.history disk.old).now.told }
    ensures creates { D.modelled → (D.history disk.new).now.creates ≡ (D.history disk.old).now.creates }
    ensures crash { D.modelled →
        Leaves (D.history disk.old) (D.history disk.new) (LeavesWithout (D.history disk.old).now stamp) }
    ensures cause { RotateHasCause (D.failed disk.old) (D.failed disk.new) result }
{
    remove_older(disk, stamp)?;
    disk.settle()?;
    Ok(())
}

// Removes these files, and settles nothing.
fn remove_older<D: SessionDisk>(disk: &mut D, stamp: u64) -> Result<(), DiskError>
    requires { stamp < 2 ^ 63 }
    ensures ok { D.modelled → OnOk result ((s : ℕ) →
        (D.history disk.new).now.standing s ≡ kept_file stamp s ((D.history disk.old).now.standing s)) }
    ensures partly { D.modelled → PartlyCleared stamp (D.history disk.old).now (D.history disk.new).now }
    ensures crash { D.modelled →
        Leaves (D.history disk.old) (D.history disk.new) (LeavesWithout (D.history disk.old).now stamp) }
    ensures cause { DiskHasCause (D.failed disk.old) (D.failed disk.new) result }
{
    let mut bound = stamp;
    while let Some(older) = disk.newest_below(Some(bound))? {
        remove_own(disk, older)?;
        bound = older;
    }
    Ok(())
}

// Removes a file unless it is foreign.
fn remove_own<D: SessionDisk>(disk: &mut D, stamp: u64) -> Result<(), DiskError>
    requires in_range { stamp < 2 ^ 63 }
    requires stands { D.modelled → IsSome ((D.history disk.old).now.standing stamp) }
    ensures removes { D.modelled → TakesOwn stamp (D.history disk.old) (D.history disk.new) result }
    ensures cause { DiskHasCause (D.failed disk.old) (D.failed disk.new) result }
{
    if is_foreign(disk, stamp)? {
        return Ok(());
    }
    disk.remove(stamp)
}

// Whether a file is foreign. Eight bytes of it are read.
fn is_foreign<D: SessionDisk>(disk: &mut D, stamp: u64) -> Result<bool, DiskError>
    requires in_range { stamp < 2 ^ 63 }
    requires stands { D.modelled → IsSome ((D.history disk.old).now.standing stamp) }
    ensures value { D.modelled →
        IfOk result (λ foreign. foreign ≡ is_foreign (bytes_at stamp (D.history disk.old).now)) }
    ensures unchanged { D.history disk.new ≡ D.history disk.old }
    ensures cause { DiskHasCause (D.failed disk.old) (D.failed disk.new) result }
{
    match read_head(disk, stamp)? {
        FileHead::Foreign(_) => Ok(true),
        FileHead::Short(_) | FileHead::Known(_) => Ok(false),
    }
}
