//! A segment whose lines are acted on by the thread that calls, and which a second thread writes.
//! It is over when the second thread has come back.
ghost use Rattle.std.specs.Prelude.{◌≡◌};
ghost use Rattle.script_run.specs.SegmentWriting.{CanWrite, WritesSegment};
ghost use Rattle.threaded_run.specs.Answers.{answer_of};

use crate::beside::{Met, WriterSide, beside};
use crate::gate::Gate;
use crate::issuing::Issued;
use crate::putting::Issuer;
use command_queue::{AckBoard, CommandQueue};
use script_run::{Ended, Halt, RunState, write_inline};
use session_disk::{Clock, SessionDisk};
use std::alloc::Global;
use std::sync::Wait;
use std::thread::Threads;
use writer_core::{Report, Stopped};

// So many items are put before the issuer waits for the writer.
const ROOM: usize = 1024;

/// Acts on each line of a segment while a second thread writes what it asks and syncs both journals. Where no thread
/// can be started, it is written by the thread that calls.
///
/// It waits for the second thread, and takes memory for the queue beside what the browser's and the journals' calls
/// take.
pub(crate) fn write_beside<
    'a,
    R: Threads + Wait + Sync,
    G: Gate,
    D: SessionDisk + Send,
    C: Clock + Send,
>(
    rt: &R,
    alloc: Global,
    gate: &G,
    state: RunState<D>,
    text: &'a [u8],
    clock: &mut C,
) -> (RunState<D>, Result<Ended<'a>, Halt>)
    requires can { CanWrite state text.now }
    ensures { WritesSegment state text.now result.0 result.1 }
{
    let Ok((queue, sending, taking)) = CommandQueue::new(alloc, ROOM) else {
        return (state, Err(Halt::Memory));
    };
    let Ok((board, posting, looking)) = AckBoard::new(alloc) else {
        return (state, Err(Halt::Memory));
    };
    let RunState {
        writers,
        browser,
        number,
        puts,
    } = state;
    let issuer = Issuer {
        pass: sending,
        seat: looking,
        puts,
    };
    let side = WriterSide {
        pass: taking,
        seat: posting,
        writers,
    };
    let met = beside(
        rt,
        &queue,
        &board,
        gate,
        alloc,
        issuer,
        side,
        browser,
        number,
        text,
        &mut *clock,
    );
    let Met {
        report: Report {
            writers,
            pass,
            seat,
            stopped,
        },
        issuer,
        browser,
        issued,
    } = met;
    queue.close(issuer.pass, pass);
    board.close(seat, issuer.seat);
    let state = RunState {
        writers,
        browser,
        number,
        puts: issuer.puts,
    };
    match issued {
        Some(issued) => (state, answer_of(stopped, issued)),
        None => write_inline(alloc, state, text, clock),
    }
}

// What a segment comes to: a refusal by a journal, or else how its lines ended.
fn answer_of(stopped: Option<Stopped>, issued: Issued<'_>) -> Result<Ended<'_>, Halt>
    ensures { result ≡ answer_of stopped issued.entry }
{
    match (stopped, issued) {
        (Some(stopped), _) => Err(Halt::Journal(stopped)),
        (None, Issued::Over(ended)) => Ok(ended),
        (None, Issued::Memory | Issued::Stopped) => Err(Halt::Memory),
    }
}
