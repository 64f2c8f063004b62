//! A rotation: a fresh file under a fresh stamp takes the place of the older ones, of which only the foreign ones stay.
//! The fresh file is whole and safe before any older one goes.
ghost use Rattle.std.specs.Prelude.{◌≡◌, ◌+◌, ◌<◌, ◌-◌, ◌^◌, None, IfOk, OnOk, IsErrOf};
ghost use Rattle.session_disk.specs.Histories.{Leaves};
ghost use Rattle.fresh_files.specs.Lay.{IsAbove, IsAboveRemoved, LayHasCause};
ghost use Rattle.fresh_files.specs.Faults.{laying_fault_of};
ghost use Rattle.fresh_files.specs.Rotation.{AreRemovedOlder, IsFreshStamp, IsMomentOf, rotated, Rotates, LeavesRotated, RotationHasCause, RefusesLastStamp, MakesNothing};
ghost use Rattle.fresh_files.specs.declared.lay.LayFault.TheVariants.{NotMade, Memory};
ghost use Rattle.fresh_files.specs.declared.rotation.RotationFault.TheVariants.{MemoryAfter};

use crate::lay::{LayFault, lay_fresh};
use file_rotation::{LastStamp, clear_older, fresh_stamp};
use session_disk::{Clock, DiskError, SessionDisk};
use thiserror::Error;

/// Why a rotation was refused.
#[derive(Clone, Copy, Debug, Error)]
pub enum RotationFault {
    /// A file has the last stamp, which it carries. Nothing was made.
    #[error("no stamp is greater than {stamp}")]
    LastStamp { stamp: u64 },
    /// The disk failed, and its count of failures rose.
    #[error("the disk failed")]
    Disk,
    /// Memory ran out before the fresh file was made, and the disk is unchanged.
    #[error("memory ran out before a file was made")]
    MemoryBefore,
    /// Memory ran out when the fresh file was made.
    #[error("memory ran out when a file was made")]
    MemoryAfter,
}

impl From<LayFault> for RotationFault {
    ghost from_gives = { λ laying fault. fault ≡ laying_fault_of laying };

    fn from(laying: LayFault) -> Self {
        match laying {
            LayFault::Disk => RotationFault::Disk,
            LayFault::NotMade => RotationFault::MemoryBefore,
            LayFault::Memory => RotationFault::MemoryAfter,
        }
    }
}

/// Lays a file with these bytes under a fresh stamp, then removes the older ones, all but the foreign ones. The
/// answer is the stamp, which is above those of all files that stood. A crash at any moment of the call leaves the
/// files of the entry, and the fresh one with a prefix of its bytes; older ones are missing only where it is whole.
pub fn rotate<D: SessionDisk, C: Clock>(
    disk: &mut D,
    clock: &mut C,
    bytes: &[u8],
) -> Result<u64, RotationFault>
    ensures cause { RotationHasCause (D.failed disk.old) (D.failed disk.new) result }
    ensures last_stamp { D.modelled → RefusesLastStamp (D.history disk.old).now result }
    ensures in_range { IfOk result (λ stamp. stamp < 2 ^ 63) }
    ensures ok { D.modelled → IfOk result (Rotates (IsMomentOf C.modelled (C.moment clock.old)) bytes.now
        (D.history disk.old).now (D.history disk.new).now) }
    ensures told { D.modelled → (D.history disk.new).now.told ≡ (D.history disk.old).now.told }
    ensures unchanged { MakesNothing D.modelled result → D.history disk.new ≡ D.history disk.old }
    ensures made { D.modelled → IsErrOf result MemoryAfter →
        (D.history disk.new).now.creates ≡ (D.history disk.old).now.creates + 1 }
    ensures crash { D.modelled → AreRemovedOlder (D.history disk.old).now →
        Leaves (D.history disk.old) (D.history disk.new) (LeavesRotated (D.history disk.old).now bytes.now) }
{
    let stamp = next_stamp(disk, clock)?;
    replace(disk, stamp, bytes)?;
    Ok(stamp)
}

// The stamp of the fresh file. Nothing is changed.
fn next_stamp<D: SessionDisk, C: Clock>(disk: &mut D, clock: &mut C) -> Result<u64, RotationFault>
    ensures cause { RotationHasCause (D.failed disk.old) (D.failed disk.new) result }
    ensures last_stamp { D.modelled → RefusesLastStamp (D.history disk.old).now result }
    ensures in_range { IfOk result (λ stamp. stamp < 2 ^ 63) }
    ensures fresh { D.modelled → IfOk result
        (IsFreshStamp (IsMomentOf C.modelled (C.moment clock.old)) (D.history disk.old).now) }
    ensures before { IsErrOf result MemoryAfter → ⊥ }
    ensures unchanged { D.history disk.new ≡ D.history disk.old }
{
    let greatest = match disk.newest_below(None) {
        Ok(greatest) => greatest,
        Err(DiskError::Failed) => return Err(RotationFault::Disk),
        Err(DiskError::Memory) => return Err(RotationFault::MemoryBefore),
    };
    match fresh_stamp(clock.now(), greatest) {
        Ok(stamp) => Ok(stamp),
        Err(LastStamp(stamp)) => Err(RotationFault::LastStamp { stamp }),
    }
}

// Lays the file, then removes the older ones.
fn replace<D: SessionDisk>(disk: &mut D, stamp: u64, bytes: &[u8]) -> Result<(), LayFault>
    requires in_range { stamp < 2 ^ 63 }
    requires above { D.modelled → IsAbove stamp (D.history disk.old).now }
    ensures ok { D.modelled →
        OnOk result ((D.history disk.new).now ≡ rotated stamp bytes.now (D.history disk.old).now) }
    ensures told { D.modelled → (D.history disk.new).now.told ≡ (D.history disk.old).now.told }
    ensures unchanged { D.modelled → IsErrOf result NotMade → D.history disk.new ≡ D.history disk.old }
    ensures made { D.modelled → IsErrOf result Memory →
        (D.history disk.new).now.creates ≡ (D.history disk.old).now.creates + 1 }
    ensures crash { D.modelled → IsAboveRemoved stamp (D.history disk.old).now →
        Leaves (D.history disk.old) (D.history disk.new) (LeavesRotated (D.history disk.old).now bytes.now) }
    ensures cause { LayHasCause (D.failed disk.old) (D.failed disk.new) result }
{
    lay_fresh(disk, stamp, bytes)?;
    clear_older(disk, stamp)?;
    Ok(())
}
