//! What waits is appended to the file, and what is in the file is made safe and told. Nothing else of the crate tells a
//! disk what is acknowledged.
ghost use Rattle.std.specs.Prelude.{◌≡◌, ◌+◌, ◌<◌, ◌≤◌, ◌^◌, [], take, drop, IsSome, OnOk, OnErr, IsErrOf};
ghost use Rattle.session_disk.specs.Causes.{DiskHasCause};
ghost use Rattle.session_disk.specs.Moments.{after_append, after_tell};
ghost use Rattle.session_disk.specs.Histories.{Leaves};
ghost use Rattle.session_disk.specs.declared.failure.DiskError.TheVariants.{Memory};
ghost use Rattle.log_writer.specs.Journals.{LeavesAppended, LeavesTold, IsSafeOrNot, made_safe};
ghost use Rattle.log_writer.specs.Waiting.{behind, nothing, waiting_in};
ghost use Rattle.log_writer.specs.Log.{WhereRuns, LeavesGood, HasForeign, GoesOn, RestsAfter};
ghost use Rattle.log_writer.specs.Answers.{Answers, Lasts, TellsAll, sync_call, syncs};
ghost use Rattle.log_writer.specs.Faults.{first_of};

use crate::fault::{First, JournalFault};
use crate::journal::Journal;
use crate::pending::Pending;
use machine_law::Machine;
use session_disk::{DiskError, SessionDisk};

impl<M: Machine, D: SessionDisk> Journal<M, D> {
    /// Writes what waits, makes the file safe, and tells the disk how many commands it holds. After want of memory
    /// nothing was told, and what waited may be in the file.
    pub fn sync(&mut self) -> Result<(), JournalFault>
        ensures answers { Answers sync_call self.old self.new result }
        ensures later { Lasts self.old self.new }
        ensures told { TellsAll self.old self.new result }
        ensures follows { WhereRuns self.old (GoesOn self.old self.new (syncs self.old) [] result) }
        ensures at_rest { WhereRuns self.old (RestsAfter self.new result) }
        ensures foreign { WhereRuns self.old (HasForeign self.old self.new) }
        ensures crash { WhereRuns self.old (LeavesGood self.old self.new) }
    {
        if let Some(first) = self.failed {
            return Err(JournalFault::AlreadyFailed(first));
        }
        match make_safe(
            &mut self.disk,
            self.present.stamp,
            &mut self.pending,
            self.present.count,
        ) {
            Ok(()) => {
                self.present.told = self.present.count;
                Ok(())
            }
            Err(error) => {
                self.failed = first_of(&self.disk, error);
                Err(error.into())
            }
        }
    }
}

/// Appends what waits in front of a place, unless nothing does.
pub(crate) fn append<C: Drop, D: SessionDisk>(
    disk: &mut D,
    stamp: u64,
    pending: &mut Pending<C>,
    place: usize,
) -> Result<(), DiskError>
    requires in_range { stamp < 2 ^ 63 }
    requires place { place ≤ pending.old.whole }
    requires stands { D.modelled → IsSome ((D.history disk.old).now.standing stamp) }
    ensures ok { D.modelled → OnOk result ((D.history disk.new).now ≡
        after_append stamp (take place (waiting_in pending.old).bytes) (D.history disk.old).now) }
    ensures left { OnOk result (waiting_in pending.new ≡ behind place (waiting_in pending.old)) }
    ensures bytes { OnOk result (pending.new.bytes.items ≡ drop place pending.old.bytes.items) }
    ensures whole { OnOk result (pending.new.whole + place ≡ pending.old.whole) }
    ensures err { OnErr result (pending.new ≡ pending.old) }
    ensures stands { D.modelled → IsSome ((D.history disk.new).now.standing stamp) }
    ensures memory { D.modelled → IsErrOf result Memory → D.history disk.new ≡ D.history disk.old }
    ensures told { D.modelled → (D.history disk.new).now.told ≡ (D.history disk.old).now.told }
    ensures crash { D.modelled → Leaves (D.history disk.old) (D.history disk.new)
        (LeavesAppended (D.history disk.old).now stamp (take place (waiting_in pending.old).bytes)) }
    ensures cause { DiskHasCause (D.failed disk.old) (D.failed disk.new) result }
{
    if place == 0 {
        return Ok(());
    }
    disk.append(stamp, pending.front(place))?;
    pending.leave(place);
    Ok(())
}

// Appends all that waits, makes the file safe, and tells this count.
fn make_safe<C: Drop, D: SessionDisk>(
    disk: &mut D,
    stamp: u64,
    pending: &mut Pending<C>,
    count: u64,
) -> Result<(), DiskError>
    requires in_range { stamp < 2 ^ 63 }
    requires stands { D.modelled → IsSome ((D.history disk.old).now.standing stamp) }
    ensures ok { D.modelled → OnOk result ((D.history disk.new).now ≡
        after_tell count (made_safe stamp (waiting_in pending.old).bytes (D.history disk.old).now)) }
    ensures empty { OnOk result (waiting_in pending.new ≡ nothing) }
    ensures stands { D.modelled → IsSome ((D.history disk.new).now.standing stamp) }
    ensures memory { D.modelled → IsErrOf result Memory → IsSafeOrNot stamp (D.history disk.old).now
        (waiting_in pending.old) (D.history disk.new).now (waiting_in pending.new) }
    ensures untold { D.modelled → OnErr result ((D.history disk.new).now.told ≡ (D.history disk.old).now.told) }
    ensures crash { D.modelled → Leaves (D.history disk.old) (D.history disk.new)
        (LeavesTold (D.history disk.old).now stamp (waiting_in pending.old).bytes count) }
    ensures cause { DiskHasCause (D.failed disk.old) (D.failed disk.new) result }
{
    let whole = pending.whole;
    append(disk, stamp, pending, whole)?;
    disk.sync(stamp)?;
    disk.tell(count)
}

/// What a journal keeps of a disk's error.
pub(crate) fn first_of<D: SessionDisk>(disk: &D, error: DiskError) -> Option<First>
    ensures { result ≡ first_of (D.failed disk.now) error }
{
    match error {
        DiskError::Failed => Some(First::Disk {
            failures: disk.failures(),
        }),
        DiskError::Memory => None,
    }
}
