//! A worker: it takes items from a queue, handles each in order up to the first that a journal refuses, and says on a
//! board what is told. What it owns goes in with its start and comes back in its report.
ghost use Rattle.std.specs.Prelude.{◌≡◌, None};
ghost use Rattle.command_queue.specs.Passes.{IsWriterOf};
ghost use Rattle.command_queue.specs.Seats.{IsWriterSeatOf, posted, zeros};
ghost use Rattle.writer_core.specs.Jobs.{IsJob, session_job, tabs_job};
ghost use Rattle.writer_core.specs.Serving.{IsPosted, IsReport, Ran, Served, Turned};
ghost use Rattle.writer_core.specs.Telling.{IsCounted};

use crate::handling::{Stopped, Writers, handle};
use crate::item::Item;
use crate::queue_item::QueueItem;
use command_queue::{AckBoard, CommandQueue, Word, WriterPass, WriterSeat};
use machine_law::Machine;
use session_disk::{Clock, SessionDisk};
use std::sync::Wait;

/// What a worker gives back: the journals, what it took and posted, and the first refusal, behind which it handled
/// nothing.
#[derive(Drop)]
pub struct Report<S: Machine, T: Machine, D: SessionDisk> {
    pub writers: Writers<S, T, D>,
    pub pass: WriterPass<QueueItem<S, T>>,
    pub seat: WriterSeat,
    pub stopped: Option<Stopped>,
}

/// One turn of a worker: takes one item, and handles it where none was refused before. After a sync it posts what both
/// journals told, after a refusal that there is one. The answer is the report, and whether the item is the end. It
/// waits where the queue is empty.
pub fn serve<R: Wait, S: Machine, T: Machine, D: SessionDisk, C: Clock>(
    rt: &R,
    queue: &CommandQueue<QueueItem<S, T>>,
    board: &AckBoard,
    report: Report<S, T, D>,
    clock: &mut C,
) -> (Report<S, T, D>, bool)
    requires report { IsReport queue.now board.now report }
    ensures report { IsReport queue.now board.now result.0 }
    ensures served { Served report result.0 result.1 }
{
    let Report {
        writers,
        pass,
        seat,
        stopped,
    } = report;
    let (pass, item) = queue.take(rt, pass);
    let item = item.into_item();
    if item.is_end() {
        let report = Report {
            writers,
            pass,
            seat,
            stopped,
        };
        return (report, true);
    }
    if stopped.is_some() {
        let report = Report {
            writers,
            pass,
            seat,
            stopped,
        };
        return (report, false);
    }
    let (writers, seat, stopped) = turn(board, clock, writers, seat, item);
    let report = Report {
        writers,
        pass,
        seat,
        stopped,
    };
    (report, false)
}

// Handles an item, and posts what came of it.
fn turn<S: Machine, T: Machine, D: SessionDisk, C: Clock>(
    board: &AckBoard,
    clock: &mut C,
    mut writers: Writers<S, T, D>,
    mut seat: WriterSeat,
    item: Item<S::Command, T::Command>,
) -> (Writers<S, T, D>, WriterSeat, Option<Stopped>)
    requires posted { IsPosted board.now writers seat None }
    requires session_command { IsJob S.is_command (session_job item) }
    requires tabs_command { IsJob T.is_command (tabs_job item) }
    ensures posted { IsPosted board.now result.0 result.1 result.2 }
    ensures turned { Turned item writers (posted seat) result.2 result.0 (posted result.1) }
{
    let syncs = item.is_sync();
    if let Err(stopped) = handle(&mut writers, clock, item) {
        board.post(&mut seat, Word::Ended, 1);
        return (writers, seat, Some(stopped));
    }
    if !syncs {
        return (writers, seat, None);
    }
    board.post(&mut seat, Word::Session, writers.session.told());
    board.post(&mut seat, Word::Tabs, writers.tabs.told());
    (writers, seat, None)
}

/// Takes items up to and with the first end, and handles each in order up to the first refusal. It waits where the queue
/// is empty, and takes what the calls of the journals take.
pub fn worker<R: Wait, S: Machine, T: Machine, D: SessionDisk, C: Clock>(
    rt: &R,
    queue: &CommandQueue<QueueItem<S, T>>,
    pass: WriterPass<QueueItem<S, T>>,
    board: &AckBoard,
    seat: WriterSeat,
    writers: Writers<S, T, D>,
    clock: &mut C,
) -> Report<S, T, D>
    requires pass { IsWriterOf queue.now pass }
    requires seat { IsWriterSeatOf board.now seat }
    requires none_posted { posted seat ≡ zeros }
    requires session_works { writers.session.failed ≡ None }
    requires tabs_work { writers.tabs.failed ≡ None }
    requires session_counted { IsCounted writers.session.present }
    requires tabs_counted { IsCounted writers.tabs.present }
    ensures report { IsReport queue.now board.now result }
    ensures ran { Ran writers pass result }
{
    let mut report = Report {
        writers,
        pass,
        seat,
        stopped: None,
    };
    for _ in rt.forever() {
        let (next, is_end) = serve(rt, queue, board, report, clock);
        report = next;
        if is_end {
            return report;
        }
    }
    unreachable!()
}
