//! A fresh file of the state takes the place of a journal's file.
//! It comes where it is asked for, or where the next command would pass a limit.
ghost use Rattle.std.specs.Prelude.{◌≡◌, ◌<◌, ◌≤◌, ◌^◌, [], drop, length, None, OnOk};
ghost use Rattle.std.specs.List.{AllByRecursion};
ghost use Rattle.fresh_files.specs.Fresh.{fresh, IsWritten};
ghost use Rattle.fresh_files.specs.Rotation.{IsMomentOf};
ghost use Rattle.log_writer.specs.Waiting.{nothing, waiting_in};
ghost use Rattle.log_writer.specs.Log.{WhereRuns, LeavesGood, HasForeign, GoesOn};
ghost use Rattle.log_writer.specs.Answers.{Answers, Makes, Lasts, RestatesIn, compact_call, compacts, restates};

use crate::fault::{First, JournalFault};
use crate::journal::Journal;
use fresh_files::{RotationFault, fresh_file, rotate};
use machine_law::Machine;
use session_disk::{Clock, SessionDisk};

impl<M: Machine, D: SessionDisk> Journal<M, D> {
    /// Puts a fresh file of the present state in the place of the journal's, which takes time and memory in the state.
    pub fn compact<C: Clock>(&mut self, clock: &mut C) -> Result<(), JournalFault>
        ensures answers { Answers (compact_call self.old) self.old self.new result }
        ensures later { Lasts self.old self.new }
        ensures restated { RestatesIn (length (fresh M.kind self.old.present.state)) self.old self.new result }
        ensures makes { Makes (compact_call self.old)
            (IsMomentOf C.modelled (C.moment clock.old)) self.old self.new result }
        ensures follows { WhereRuns self.old (GoesOn self.old self.new (compacts self.old) [] result) }
        ensures foreign { WhereRuns self.old (HasForeign self.old self.new) }
        ensures crash { WhereRuns self.old (LeavesGood self.old self.new) }
    {
        if let Some(first) = self.failed {
            return Err(JournalFault::AlreadyFailed(first));
        }
        let bytes = fresh_file::<M>(self.alloc, &self.present.state)?;
        let needed = bytes.len() as u64;
        if needed > self.limits.max_file {
            return Err(JournalFault::TooLong { needed });
        }
        self.replace(clock, &bytes)
    }

    /// Puts a file with these bytes in the place of the journal's. What waits is dropped, since the state holds it.
    pub(crate) fn replace<C: Clock>(
        &mut self,
        clock: &mut C,
        bytes: &[u8],
    ) -> Result<(), JournalFault>
        requires works { self.old.failed ≡ None }
        requires short { length bytes.now ≤ self.old.limits.max_file }
        requires bytes { bytes.now ≡ fresh M.kind self.old.present.state }
        requires written { AllByRecursion (IsWritten M.kind) (M.kind.compaction self.old.present.state) }
        ensures answers { Answers (compact_call self.old) self.old self.new result }
        ensures later { Lasts self.old self.new }
        ensures restated { RestatesIn (length bytes.now) self.old self.new result }
        ensures makes { Makes (compact_call self.old)
            (IsMomentOf C.modelled (C.moment clock.old)) self.old self.new result }
        ensures empty { OnOk result (waiting_in self.new.pending ≡ nothing) }
        ensures drafted { OnOk result
            (self.new.pending.bytes.items ≡ drop self.old.pending.whole self.old.pending.bytes.items) }
        ensures follows { WhereRuns self.old (GoesOn self.old self.new (restates self.old) [] result) }
        ensures crash { WhereRuns self.old (LeavesGood self.old self.new) }
    {
        M::known_state(&self.present.state);
        match rotate(&mut self.disk, clock, bytes) {
            Ok(stamp) => {
                let whole = self.pending.whole;
                self.pending.leave(whole);
                self.present.stamp = stamp;
                self.present.after = 0;
                self.present.length = bytes.len() as u64;
                Ok(())
            }
            Err(RotationFault::LastStamp { stamp }) => Err(JournalFault::LastStamp { stamp }),
            Err(RotationFault::MemoryBefore) => Err(JournalFault::Memory),
            Err(RotationFault::MemoryAfter) => {
                self.failed = Some(First::Memory);
                Err(JournalFault::Memory)
            }
            Err(RotationFault::Disk) => {
                self.failed = Some(First::Disk {
                    failures: self.disk.failures(),
                });
                Err(JournalFault::Disk)
            }
        }
    }
}
