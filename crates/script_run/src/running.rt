//! A script run over journals that are open, all of it by the thread that calls.
//! Segment follows segment; behind each of them both journals are synced.
ghost use Rattle.std.specs.Prelude.{◌≡◌, ◌≤◌, ◌^◌, length, None};
ghost use Rattle.script_run.specs.Doing.{sunk};
ghost use Rattle.script_run.specs.SegmentWriting.{CanWrite};
ghost use Rattle.script_run.specs.Whole.{RunsLines, RunsWhole};

use crate::halt::Halt;
use crate::inline::write_inline;
use crate::lines::{Next, go_on};
use crate::run_state::RunState;
use crate::starting::start;
use compactor::SessionMachine;
use run_words::Why;
use session_disk::{Clock, SessionDisk, Sink};
use std::alloc::Global;
use tabs_compactor::TabsMachine;
use writer_core::Writers;

/// Runs a script over the journals of both families, which were just opened: writes the line of a start, tidies both
/// states, acts on each line up to the first that is refused, and syncs both journals. The answer is the number of that
/// line, counted from 1, and why it is refused.
///
/// It takes time and memory in both states and, for each line, what its verb and the calls of the journals take.
///
/// The clauses on content hold where the sink and the disks are modelled.
pub fn run_script<K: Sink, D: SessionDisk, C: Clock>(
    alloc: Global,
    writers: Writers<SessionMachine, TabsMachine, D>,
    out: &mut K,
    clock: &mut C,
    text: &[u8],
) -> (
    Writers<SessionMachine, TabsMachine, D>,
    Result<Option<(u64, Why)>, Halt>,
)
    requires session_works { writers.session.failed ≡ None }
    requires tabs_work { writers.tabs.failed ≡ None }
    requires session_empty { writers.session.present.count ≡ 0 }
    requires tabs_empty { writers.tabs.present.count ≡ 0 }
    requires session_untold { writers.session.present.told ≡ 0 }
    requires tabs_untold { writers.tabs.present.told ≡ 0 }
    requires short { length text.now ≤ 2 ^ 30 }
    ensures { RunsWhole writers text.now result.0 (sunk K.written K.faults out.old) (sunk K.written K.faults out.new)
        result.1 }
{
    match start(alloc, writers, out, clock) {
        Ok(state) => run_lines(alloc, state, out, clock, text),
        Err((writers, halt)) => (writers, Err(halt)),
    }
}

// Acts on each line and writes it, segment by segment.
fn run_lines<K: Sink, D: SessionDisk, C: Clock>(
    alloc: Global,
    mut state: RunState<D>,
    out: &mut K,
    clock: &mut C,
    text: &[u8],
) -> (
    Writers<SessionMachine, TabsMachine, D>,
    Result<Option<(u64, Why)>, Halt>,
)
    requires can { CanWrite state text.now }
    requires first { state.number ≡ 0 }
    ensures { RunsLines text.now state.browser state.writers result.0
        (sunk K.written K.faults out.old) (sunk K.written K.faults out.new) result.1 }
{
    let mut rest = text;
    loop {
        let (behind, written) = write_inline(alloc, state, rest, clock);
        let (next, following) = go_on(alloc, behind, written, out);
        match following {
            Next::Lines(others) => {
                state = next;
                rest = others;
            }
            Next::Over(ran) => return (next.writers, ran),
        }
    }
}
