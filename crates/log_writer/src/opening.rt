//! A journal is opened: the files are read, and a fresh one of their state takes the place of the lawful ones, beside
//! the foreign ones.
ghost use Rattle.std.specs.Prelude.{◌≡◌, ◌<◌, ◌≤◌, ◌^◌, [], length, None, IsSome, IfOk};
ghost use Rattle.session_disk.specs.Histories.{Leaves};
ghost use Rattle.fresh_files.specs.Fresh.{fresh};
ghost use Rattle.fresh_files.specs.Rotation.{IsMomentOf};
ghost use Rattle.log_writer.specs.Journals.{IsReady};
ghost use Rattle.log_writer.specs.Waiting.{nothing};
ghost use Rattle.log_writer.specs.Log.{IsLeft};
ghost use Rattle.log_writer.specs.Opening.{OpenAnswers, OpenMakes, RefusesOpening, Starts, AnswersOpening, MakesOpening, WhereReady, FitsOpening, StartsAt, LeavesStart, left_disk};

use crate::fault::JournalFault;
use crate::journal::{Journal, Present};
use crate::limits::Limits;
use crate::pending::Pending;
use file_rotation::{Recovered, recover};
use fresh_files::{fresh_file, rotate};
use machine_law::Machine;
use session_disk::{Clock, SessionDisk};
use std::alloc::Global;

impl<M: Machine, D: SessionDisk> Journal<M, D> {
    /// Reads the files of a disk and puts a fresh one of their state in the place of the lawful ones, which takes time
    /// and memory in the files and in the state. A refusal hands the disk back.
    pub fn open<C: Clock>(
        alloc: Global,
        disk: D,
        clock: &mut C,
        limits: Limits,
    ) -> Result<Journal<M, D>, (D, JournalFault)>
        ensures answers { AnswersOpening disk limits result }
        ensures works { IfOk result (λ j. (j.failed ≡ None) × (j.limits ≡ limits)) }
        ensures later { D.failed disk ≤ D.failed (left_disk result) }
        ensures makes { MakesOpening disk (IsMomentOf C.modelled (C.moment clock.old)) result }
        ensures length { WhereReady disk result (FitsOpening limits result) }
        ensures ok { WhereReady disk result (StartsAt disk limits result) }
        ensures crash { WhereReady disk result (LeavesStart disk result) }
    {
        let Ok(pending) = Pending::new(alloc) else {
            return Err((disk, JournalFault::Memory));
        };
        let mut disk = disk;
        match begin::<M, D, C>(alloc, &mut disk, clock, &limits) {
            Ok(present) => Ok(Journal {
                disk,
                limits,
                failed: None,
                pending,
                present,
                alloc,
            }),
            Err(fault) => Err((disk, fault)),
        }
    }
}

// Puts a fresh file of the state to which the files read in the place of the lawful ones.
fn begin<M: Machine, D: SessionDisk, C: Clock>(
    alloc: Global,
    disk: &mut D,
    clock: &mut C,
    limits: &Limits,
) -> Result<Present<M::State>, JournalFault>
    ensures answers { OpenAnswers limits.now
        (record { history = D.history disk.old; failures = D.failed disk.old })
        (record { history = D.history disk.new; failures = D.failed disk.new }) result }
    ensures later { D.failed disk.old ≤ D.failed disk.new }
    ensures bounds { IfOk result (λ p. (p.length ≤ limits.now.max_file) × (p.stamp < 2 ^ 63)) }
    ensures stands { D.modelled → IfOk result (λ p. IsSome ((D.history disk.new).now.standing p.stamp)) }
    ensures makes { D.modelled →
        OpenMakes (IsMomentOf C.modelled (C.moment clock.old)) (D.history disk.old).now result }
    ensures length { D.modelled → (s : M.State) → IsReady M.kind (D.history disk.old).now s →
        RefusesOpening limits.now.max_file (length (fresh M.kind s)) result }
    ensures ok { D.modelled → (s : M.State) → IsReady M.kind (D.history disk.old).now s →
        IfOk result (λ p. Starts M.kind limits.now (D.history disk.old).now (D.history disk.new).now p nothing s) }
    ensures crash { D.modelled → (s : M.State) → IsReady M.kind (D.history disk.old).now s →
        Leaves (D.history disk.old) (D.history disk.new) (IsLeft M.kind (D.history disk.old).now s []) }
{
    let Recovered {
        state,
        chosen: _,
        greatest: _,
        commands: _,
        ending: _,
    } = recover::<M, D>(alloc, disk)?;
    M::known_state(&state);
    let bytes = fresh_file::<M>(alloc, &state)?;
    let needed = bytes.len() as u64;
    if needed > limits.max_file {
        return Err(JournalFault::TooLong { needed });
    }
    let stamp = rotate(disk, clock, &bytes)?;
    Ok(Present {
        state,
        count: 0,
        told: 0,
        after: 0,
        length: needed,
        stamp,
    })
}
