//! A script run over journals that are open, with a second thread that writes them.
//! Segment follows segment; behind each of them both journals are synced, and the second thread has come back.
ghost use Rattle.std.specs.Prelude.{◌≡◌, ◌≤◌, ◌^◌, length, None};
ghost use Rattle.script_run.specs.Doing.{sunk};
ghost use Rattle.script_run.specs.SegmentWriting.{CanWrite};
ghost use Rattle.script_run.specs.Whole.{RunsLines, RunsWhole};

use crate::gate::Gate;
use crate::threaded::write_beside;
use compactor::SessionMachine;
use run_words::Why;
use script_run::{Halt, Next, RunState, go_on, start};
use session_disk::{Clock, SessionDisk, Sink};
use std::alloc::Global;
use std::sync::Wait;
use std::thread::Threads;
use tabs_compactor::TabsMachine;
use writer_core::Writers;

/// Does what `run_script` of `script_run` does, with a second thread that writes the journals, and passes the gate
/// behind each item that is handed to it.
///
/// It waits for the second thread, and takes memory for a queue a segment beside what `run_script` takes.
///
/// The clauses on content hold where the sink and the disks are modelled.
pub fn run_script_beside<
    R: Threads + Wait + Sync,
    G: Gate,
    K: Sink,
    D: SessionDisk + Send,
    C: Clock + Send,
>(
    rt: &R,
    alloc: Global,
    gate: &G,
    writers: Writers<SessionMachine, TabsMachine, D>,
    out: &mut K,
    clock: &mut C,
    text: &[u8],
) -> (
    Writers<SessionMachine, TabsMachine, D>,
    Result<Option<(u64, Why)>, Halt>,
)
    requires session_works { writers.session.failed ≡ None }
    requires tabs_work { writers.tabs.failed ≡ None }
    requires session_empty { writers.session.present.count ≡ 0 }
    requires tabs_empty { writers.tabs.present.count ≡ 0 }
    requires session_untold { writers.session.present.told ≡ 0 }
    requires tabs_untold { writers.tabs.present.told ≡ 0 }
    requires short { length text.now ≤ 2 ^ 30 }
    ensures { RunsWhole writers text.now result.0 (sunk K.written K.faults out.old) (sunk K.written K.faults out.new)
        result.1 }
{
    match start(alloc, writers, out, clock) {
        Ok(state) => run_lines(rt, alloc, gate, state, out, clock, text),
        Err((writers, halt)) => (writers, Err(halt)),
    }
}

// Acts on each line and has it written, segment by segment.
fn run_lines<R: Threads + Wait + Sync, G: Gate, K: Sink, D: SessionDisk + Send, C: Clock + Send>(
    rt: &R,
    alloc: Global,
    gate: &G,
    mut state: RunState<D>,
    out: &mut K,
    clock: &mut C,
    text: &[u8],
) -> (
    Writers<SessionMachine, TabsMachine, D>,
    Result<Option<(u64, Why)>, Halt>,
)
    requires can { CanWrite state text.now }
    requires first { state.number ≡ 0 }
    ensures { RunsLines text.now state.browser state.writers result.0
        (sunk K.written K.faults out.old) (sunk K.written K.faults out.new) result.1 }
{
    let mut rest = text;
    loop {
        let (behind, written) = write_beside(rt, alloc, gate, state, rest, clock);
        let (next, following) = go_on(alloc, behind, written, out);
        match following {
            Next::Lines(others) => {
                state = next;
                rest = others;
            }
            Next::Over(ran) => return (next.writers, ran),
        }
    }
}
