//! The line of a sync, which is written when both journals are synced.
//! Nothing else is written between the first line of a run and its last one.
ghost use Rattle.std.specs.Prelude.{◌≡◌, [], ◌∷◌, None};
ghost use Rattle.script_run.specs.Doing.{DoesSteps, sunk};
ghost use Rattle.script_run.specs.Steps.{Say};

use crate::halt::Halt;
use compactor::SessionMachine;
use run_words::sync_line;
use session_disk::{SessionDisk, Sink, write_all};
use std::alloc::Global;
use tabs_compactor::TabsMachine;
use writer_core::Writers;

/// Writes the line of a sync, with the numbers of commands that both journals took, all of which are told.
pub(crate) fn say_sync<K: Sink, D: SessionDisk>(
    alloc: Global,
    writers: &Writers<SessionMachine, TabsMachine, D>,
    out: &mut K,
) -> Result<(), Halt>
    requires session_works { writers.now.session.failed ≡ None }
    requires tabs_work { writers.now.tabs.failed ≡ None }
    requires session_told { writers.now.session.present.told ≡ writers.now.session.present.count }
    requires tabs_told { writers.now.tabs.present.told ≡ writers.now.tabs.present.count }
    ensures { DoesSteps (Say ∷ []) writers.now writers.now
        (sunk K.written K.faults out.old) (sunk K.written K.faults out.new) result }
{
    let Ok(line) = sync_line(alloc, writers.session.count(), writers.tabs.count()) else {
        return Err(Halt::Memory);
    };
    match write_all(out, line.as_bytes()) {
        Ok(()) => Ok(()),
        Err(_) => Err(Halt::Write),
    }
}
