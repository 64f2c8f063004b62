//! What follows a segment: the line of its sync and further lines, or the end of the run.
//! The line of a sync is written where a line of the script asked for it, when both journals are synced.
ghost use Rattle.std.specs.Prelude.{IfOk};
ghost use Rattle.script_run.specs.Doing.{sunk};
ghost use Rattle.script_run.specs.Following.{AreSynced, Follows};

use crate::halt::Halt;
use crate::run_state::RunState;
use crate::segments::Ended;
use crate::syncing::say_sync;
use run_words::Why;
use session_disk::{SessionDisk, Sink};
use std::alloc::Global;

/// What a run comes to behind a segment.
#[derive(Clone, Copy)]
pub enum Next<'a> {
    /// This text is left.
    Lines(&'a [u8]),
    /// The run is over. The number and the reason are those of a line that is refused.
    Over(Result<Option<(u64, Why)>, Halt>),
}

/// Goes on behind a segment that was written so: where it ended with a line of a sync, writes the line of that. It takes
/// time and memory for that line alone.
pub fn go_on<'a, K: Sink, D: SessionDisk>(
    alloc: Global,
    mut state: RunState<D>,
    written: Result<Ended<'a>, Halt>,
    out: &mut K,
) -> (RunState<D>, Next<'a>)
    requires synced { IfOk written (λ ended. AreSynced state.writers) }
    ensures { Follows state written.entry (sunk K.written K.faults out.old) (sunk K.written K.faults out.new)
        result.0 result.1 }
{
    let (number, others) = match written {
        Ok(Ended::Sync(number, others)) => (number, others),
        Ok(Ended::Script(refused)) => return (state, Next::Over(Ok(refused))),
        Err(halt) => return (state, Next::Over(Err(halt))),
    };
    if let Err(halt) = say_sync(alloc, &state.writers, out) {
        return (state, Next::Over(Err(halt)));
    }
    state.number = number;
    (state, Next::Lines(others))
}
