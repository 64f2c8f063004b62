//! The journal of a family, opened at the start of a run. Where its account begins, or why it is refused, is said of
//! any machine.
ghost use Rattle.std.specs.Prelude.{◌≡◌, IfOk, IfErr};
ghost use Rattle.log_writer.specs.Log.{log};
ghost use Rattle.writer_core.specs.Opening.{Opens, RefusesOpening, seen};

use crate::handling::Stopped;
use log_writer::{Journal, Limits};
use machine_law::Machine;
use session_disk::{Clock, Family, SessionDisk};
use std::alloc::Global;

/// Opens the journal of a family, which takes time and memory in the disk's files and in their state. A refusal names
/// the family and hands the disk back.
pub fn open_journal<M: Machine, D: SessionDisk, C: Clock>(
    alloc: Global,
    family: Family,
    disk: D,
    clock: &mut C,
    limits: Limits,
) -> Result<Journal<M, D>, (D, Stopped)>
    ensures opens { IfOk result (λ j.
        Opens M.kind D.modelled limits (seen D.history D.failed disk) (log j)) }
    ensures family { IfErr result (λ refused. refused.1.family ≡ family) }
    ensures refuses { IfErr result (λ refused. RefusesOpening M.kind D.modelled limits
        (seen D.history D.failed disk) (seen D.history D.failed refused.0) refused.1.fault) }
{
    match Journal::open(alloc, disk, clock, limits) {
        Ok(journal) => Ok(journal),
        Err((disk, fault)) => Err((disk, Stopped { family, fault })),
    }
}
