//! Tests of a worker over journals in memory: what it has told is seen while it goes on, and behind a refusal it takes
//! all items that wait and writes nothing of them.
ghost use Rattle.std.specs.Prelude.{◌≡◌, None, IfOk};
ghost use Rattle.command_queue.specs.Passes.{IsIssuerOf, IsWriterOf};
ghost use Rattle.command_queue.specs.Seats.{IsIssuerSeatOf, IsWriterSeatOf, posted, zeros};
ghost use Rattle.compactor.specs.session.SessionKind.{IsCommand as IsSessionCommand};
ghost use Rattle.tabs_compactor.specs.TabsKind.{IsCommand as IsTabsCommand};
ghost use Rattle.writer_core.specs.Telling.{IsCounted};

use crate::gate_disk::MOST_LOOKS;
use command_queue::{
    AckBoard, CommandQueue, IssuerPass, IssuerSeat, Posted, Word, WriterPass, WriterSeat,
};
use compactor::SessionMachine;
use log_writer::{Journal, JournalFault, Limits};
use machine_law::Machine;
use session_commands::SessionCommand;
use session_disk::{Call, Failure, Family, FixedClock, MemoryDisk};
use std::alloc::Global;
use std::sync::Wait;
use std::test::Fail;
use std::thread;
use tab_restore_commands::TabsCommand;
use tabs_compactor::TabsMachine;
use writer_core::{Item, QueueItem, Report, Stopped, Writers, open_journal, worker};

type RunItem = QueueItem<SessionMachine, TabsMachine>;

type RunQueue = CommandQueue<RunItem>;

type RunWriters = Writers<SessionMachine, TabsMachine, MemoryDisk>;

const LIMITS: Limits = Limits {
    every: 250,
    max_file: 1 << 20,
};

// The first append of a journal is that of its fresh file.
const SECOND_APPEND: Failure = Failure {
    call: Call::Append,
    nth: 2,
    done: 0,
    lasting: false,
};

#[test]
fn early_ack(rt: HostRuntime) -> Result<(), Fail> {
    let (queue, issuer, pass) = CommandQueue::new(rt.alloc(), 4)?;
    let (board, seat, looks) = AckBoard::new(rt.alloc())?;
    let writers = opened(rt.alloc(), &[])?;
    let (line, shown) = (&queue, &board);
    let ((pass, seat, is_done), (issuer, looks, is_seen)) = thread::join(
        &rt,
        move || -> (WriterPass<RunItem>, WriterSeat, bool)
            requires { IsWriterOf line.now pass × IsWriterSeatOf shown.now seat × (posted seat ≡ zeros)
                × (writers.session.failed ≡ None) × (writers.tabs.failed ≡ None)
                × IsCounted writers.session.present × IsCounted writers.tabs.present }
            ensures { IsWriterOf line.entry.now result.0 × IsWriterSeatOf shown.entry.now result.1 }
        { work(&rt, line, shown, pass, seat, writers) },
        move || -> (IssuerPass<RunItem>, IssuerSeat, bool)
            requires { IsIssuerOf line.now issuer × IsIssuerSeatOf shown.now looks }
            ensures { IsIssuerOf line.entry.now result.0 × IsIssuerSeatOf shown.entry.now result.1 }
        { await_one(&rt, line, shown, issuer, looks) },
    );
    assert!(rt; is_seen && is_done);
    assert!(rt; queue.close(issuer, pass).next(&rt).is_none());
    let expected = Posted {
        session: 1,
        tabs: 0,
        ended: 0,
    };
    assert_eq!(rt; board.close(seat, looks), expected);
    Ok(())
}

// Handles all items up to the end, and answers whether that went well and told one command of the session.
fn work<R: Wait>(
    rt: &R,
    queue: &RunQueue,
    board: &AckBoard,
    pass: WriterPass<RunItem>,
    seat: WriterSeat,
    writers: RunWriters,
) -> (WriterPass<RunItem>, WriterSeat, bool)
    requires pass { IsWriterOf queue.now pass }
    requires seat { IsWriterSeatOf board.now seat }
    requires none_posted { posted seat ≡ zeros }
    requires session_works { writers.session.failed ≡ None }
    requires tabs_work { writers.tabs.failed ≡ None }
    requires session_counted { IsCounted writers.session.present }
    requires tabs_counted { IsCounted writers.tabs.present }
    ensures pass { IsWriterOf queue.now result.0 }
    ensures seat { IsWriterSeatOf board.now result.1 }
{
    let mut clock = FixedClock::new(100);
    let Report {
        writers: Writers { session, tabs },
        pass,
        seat,
        stopped,
    } = worker(rt, queue, pass, board, seat, writers, &mut clock);
    let is_done = stopped.is_none() && session.told() == 1 && tabs.told() == 0;
    (pass, seat, is_done)
}

// Puts a command and a sync, and the end when it is seen that the command is told, or wasn't in so many looks. The
// answer is whether it is seen.
fn await_one<R: Wait>(
    rt: &R,
    queue: &RunQueue,
    board: &AckBoard,
    issuer: IssuerPass<RunItem>,
    mut looks: IssuerSeat,
) -> (IssuerPass<RunItem>, IssuerSeat, bool)
    requires issuer { IsIssuerOf queue.now issuer }
    requires seat { IsIssuerSeatOf board.now looks }
    ensures issuer { IsIssuerOf queue.now result.0 }
    ensures seat { IsIssuerSeatOf board.now result.1 }
{
    let issuer = queue.put(rt, issuer, QueueItem::new(Item::Session(tab(2))));
    let issuer = queue.put(rt, issuer, QueueItem::new(Item::Sync));
    let is_seen = is_told(board, &mut looks);
    let issuer = queue.put(rt, issuer, QueueItem::new(Item::End));
    (issuer, looks, is_seen)
}

// Looks until a command of the session is told, and answers whether one is.
fn is_told(board: &AckBoard, looks: &mut IssuerSeat) -> bool
    requires { IsIssuerSeatOf board.now looks.old }
    ensures { IsIssuerSeatOf board.now looks.new }
{
    for _ in 0..MOST_LOOKS {
        if board.seen(looks, Word::Session) == 1 {
            return true;
        }
        thread::yield_now();
    }
    false
}

#[test]
fn nothing_is_written_behind_a_refusal(rt: HostRuntime) -> Result<(), Fail> {
    let (queue, issuer, pass) = CommandQueue::new(rt.alloc(), 1024)?;
    let (board, seat, mut looks) = AckBoard::new(rt.alloc())?;
    let issuer = put_refused(&rt, &queue, issuer);
    let writers = opened(rt.alloc(), &[SECOND_APPEND])?;
    let mut clock = FixedClock::new(100);
    let report = worker(&rt, &queue, pass, &board, seat, writers, &mut clock);
    assert_eq!(rt; board.seen(&mut looks, Word::Ended), 1);
    let Report {
        writers: Writers { session, tabs },
        pass,
        seat,
        stopped,
    } = report;
    let refusal = Stopped {
        family: Family::Session,
        fault: JournalFault::Disk,
    };
    assert_eq!(rt; stopped, Some(refusal));
    assert!(rt; queue.close(issuer, pass).next(&rt).is_none());
    let expected = Posted {
        session: 0,
        tabs: 0,
        ended: 1,
    };
    assert_eq!(rt; board.close(seat, looks), expected);
    assert!(rt; is_fresh(&session.close()) && is_fresh(&tabs.close()));
    Ok(())
}

// Puts a command and its sync, a thousand items behind them, and the end.
fn put_refused<R: Wait>(
    rt: &R,
    queue: &RunQueue,
    issuer: IssuerPass<RunItem>,
) -> IssuerPass<RunItem>
    requires { IsIssuerOf queue.now issuer }
    ensures { IsIssuerOf queue.now result }
{
    let issuer = queue.put(rt, issuer, QueueItem::new(Item::Session(tab(2))));
    let mut issuer = queue.put(rt, issuer, QueueItem::new(Item::Sync));
    for _ in 0..250u64 {
        issuer = queue.put(rt, issuer, QueueItem::new(Item::Session(tab(3))));
        issuer = queue.put(rt, issuer, QueueItem::new(Item::Tabs(restored(3))));
        issuer = queue.put(rt, issuer, QueueItem::new(Item::Compact));
        issuer = queue.put(rt, issuer, QueueItem::new(Item::Sync));
    }
    queue.put(rt, issuer, QueueItem::new(Item::End))
}

// Whether a disk has one file, of header and marker alone.
fn is_fresh(disk: &MemoryDisk) -> bool {
    match disk.files() {
        [file] => file.stamp == 100 && file.bytes.as_slice().len() == 11,
        _ => false,
    }
}

// Journals over empty disks, of which the session's fails so.
fn opened(alloc: Global, failures: &[Failure]) -> Result<RunWriters, Fail>
    ensures session_works { IfOk result (λ writers. writers.session.failed ≡ None) }
    ensures tabs_work { IfOk result (λ writers. writers.tabs.failed ≡ None) }
    ensures session_counted { IfOk result (λ writers. IsCounted writers.session.present) }
    ensures tabs_counted { IfOk result (λ writers. IsCounted writers.tabs.present) }
{
    match journal::<SessionMachine>(alloc, Family::Session, failures) {
        Ok(session) => beside_tabs(alloc, session),
        Err(fail) => Err(fail),
    }
}

// This journal, and one of the tabs beside it.
fn beside_tabs(
    alloc: Global,
    session: Journal<SessionMachine, MemoryDisk>,
) -> Result<RunWriters, Fail>
    requires works { session.failed ≡ None }
    requires counted { IsCounted session.present }
    ensures session_works { IfOk result (λ writers. writers.session.failed ≡ None) }
    ensures tabs_work { IfOk result (λ writers. writers.tabs.failed ≡ None) }
    ensures session_counted { IfOk result (λ writers. IsCounted writers.session.present) }
    ensures tabs_counted { IfOk result (λ writers. IsCounted writers.tabs.present) }
{
    match journal::<TabsMachine>(alloc, Family::Tabs, &[]) {
        Ok(tabs) => Ok(Writers { session, tabs }),
        Err(fail) => Err(fail),
    }
}

// A journal over an empty disk that fails so.
fn journal<M: Machine>(
    alloc: Global,
    family: Family,
    failures: &[Failure],
) -> Result<Journal<M, MemoryDisk>, Fail>
    ensures works { IfOk result (λ journal. journal.failed ≡ None) }
    ensures counted { IfOk result (λ journal. IsCounted journal.present) }
{
    let mut disk = MemoryDisk::empty(alloc)?;
    disk.fail(failures)?;
    match open_journal(alloc, family, disk, &mut FixedClock::new(100), LIMITS) {
        Ok(journal) => Ok(journal),
        Err((_, stopped)) => Err(stopped.fault.into()),
    }
}

// A tab in window 1.
fn tab(tab: i32) -> SessionCommand
    ensures { IsSessionCommand result }
{
    let command = SessionCommand::TabWindow { window: 1, tab };
    command.known_in_range();
    command
}

// The entry of this tab or window was restored.
fn restored(id: i32) -> TabsCommand
    ensures { IsTabsCommand result }
{
    let command = TabsCommand::RestoredEntry { id };
    command.known_in_range();
    command
}
