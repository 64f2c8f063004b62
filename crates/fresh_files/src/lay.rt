//! A fresh file is laid: made, filled, synced and settled. It comes to stand beside the older files, which a crash
//! still finds while it isn't whole.
ghost use Rattle.std.specs.Prelude.{◌≡◌, ◌+◌, ◌<◌, ◌^◌, OnOk, IsErrOf};
ghost use Rattle.session_disk.specs.Images.{OnlyLeaves};
ghost use Rattle.session_disk.specs.Histories.{Leaves};
ghost use Rattle.fresh_files.specs.Lay.{IsAbove, IsAboveRemoved, laid, LeavesLaid, HasWhole, LayHasCause};
ghost use Rattle.fresh_files.specs.Faults.{lay_fault_of, clearing_fault_of};
ghost use Rattle.fresh_files.specs.declared.lay.LayFault.TheVariants.{NotMade, Memory};

use file_rotation::RotateFault;
use session_disk::{DiskError, SessionDisk};

/// Why a fresh file wasn't laid, or the older ones not cleared away behind it.
#[derive(Clone, Copy)]
pub(crate) enum LayFault {
    /// The disk failed, and its count of failures rose.
    Disk,
    /// The creation found no memory, and no file was made.
    NotMade,
    /// Memory ran out when the file was made.
    Memory,
}

impl From<DiskError> for LayFault {
    ghost from_gives = { λ error fault. fault ≡ lay_fault_of error };

    // A disk's error behind the creation.
    fn from(error: DiskError) -> Self {
        match error {
            DiskError::Failed => LayFault::Disk,
            DiskError::Memory => LayFault::Memory,
        }
    }
}

impl From<RotateFault> for LayFault {
    ghost from_gives = { λ part fault. fault ≡ clearing_fault_of part };

    fn from(part: RotateFault) -> Self {
        match part {
            RotateFault::Disk => LayFault::Disk,
            RotateFault::Memory => LayFault::Memory,
        }
    }
}

/// Makes a file with these bytes under a stamp above all that stand, and makes it safe. After a refusal it may stand
/// with a prefix of the bytes.
pub(crate) fn lay_fresh<D: SessionDisk>(
    disk: &mut D,
    stamp: u64,
    bytes: &[u8],
) -> Result<(), LayFault>
    requires in_range { stamp < 2 ^ 63 }
    requires above { D.modelled → IsAbove stamp (D.history disk.old).now }
    ensures ok { D.modelled → OnOk result ((D.history disk.new).now ≡ laid stamp bytes.now (D.history disk.old).now) }
    ensures whole { D.modelled → OnOk result (OnlyLeaves (HasWhole stamp bytes.now) (D.history disk.new).now) }
    ensures told { D.modelled → (D.history disk.new).now.told ≡ (D.history disk.old).now.told }
    ensures unchanged { D.modelled → IsErrOf result NotMade → D.history disk.new ≡ D.history disk.old }
    ensures made { D.modelled → IsErrOf result Memory →
        (D.history disk.new).now.creates ≡ (D.history disk.old).now.creates + 1 }
    ensures crash { D.modelled → IsAboveRemoved stamp (D.history disk.old).now →
        Leaves (D.history disk.old) (D.history disk.new) (LeavesLaid (D.history disk.old).now stamp bytes.now) }
    ensures cause { LayHasCause (D.failed disk.old) (D.failed disk.new) result }
{
    match disk.create(stamp) {
        Ok(()) => {}
        Err(DiskError::Failed) => return Err(LayFault::Disk),
        Err(DiskError::Memory) => return Err(LayFault::NotMade),
    }
    disk.append(stamp, bytes)?;
    disk.sync(stamp)?;
    disk.settle()?;
    Ok(())
}
