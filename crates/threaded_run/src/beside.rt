//! The writer of a segment in a thread of its own, beside its issuer.
//! Where no thread can be started, what would have been done in it is done by the thread that calls, behind no item.
ghost use Rattle.std.specs.Prelude.{◌≡◌, ◌+◌, ◌≤◌, ◌^◌, [], ◌∷◌, ◌++◌, length};
ghost use Rattle.command_queue.specs.Passes.{IsIssuerOf, sent};
ghost use Rattle.threaded_run.specs.Beside.{AreReady, IsWriterReady, IssuedBeside, WorksAs};

use crate::gate::Gate;
use crate::issuing::{Issued, issue};
use crate::putting::{Issuer, RunQueue};
use browser_driver::Browser;
use command_queue::{AckBoard, WriterPass, WriterSeat};
use compactor::SessionMachine;
use session_disk::{Clock, SessionDisk};
use std::alloc::Global;
use std::snapshot::Snapshot;
use std::sync::Wait;
use std::thread;
use std::thread::{Promise, Threads};
use tabs_compactor::TabsMachine;
use writer_core::{Item, QueueItem, Report, Writers, worker};

/// What the writer of a segment takes with it: its pass of the queue, its seat of the board, and the journals.
#[derive(Drop)]
pub(crate) struct WriterSide<D: SessionDisk> {
    pub pass: WriterPass<QueueItem<SessionMachine, TabsMachine>>,
    pub seat: WriterSeat,
    pub writers: Writers<SessionMachine, TabsMachine, D>,
}

/// What a segment comes to: the writer's report, the issuer with its browser, and how far the lines were put, which is
/// None where no thread could be started and no line was acted on.
#[derive(Drop)]
pub(crate) struct Met<'a, D: SessionDisk> {
    pub report: Report<SessionMachine, TabsMachine, D>,
    pub issuer: Issuer,
    pub browser: Browser,
    pub issued: Option<Issued<'a>>,
}

// What a writer in its thread will have done.
#[derive(Drop)]
struct Works<'q, D: SessionDisk> {
    queue: &'q RunQueue,
    board: &'q AckBoard,
    side: Snapshot<WriterSide<D>>,
}

impl<'q, D: SessionDisk> Promise<Report<SessionMachine, TabsMachine, D>> for Works<'q, D> {
    ghost use Rattle.threaded_run.specs.Beside.{WorksAs};

    ghost kept_by = { λ works report. WorksAs works.queue.now works.board.now works.side.value report };
}

/// Starts the writer in a thread, acts on each line of a segment, puts what it asks, and waits for the writer.
pub(crate) fn beside<'a, R: Threads + Wait + Sync, G: Gate, D: SessionDisk + Send, C: Clock + Send>(
    rt: &R,
    queue: &RunQueue,
    board: &AckBoard,
    gate: &G,
    alloc: Global,
    issuer: Issuer,
    side: WriterSide<D>,
    browser: Browser,
    number: u64,
    text: &'a [u8],
    clock: C,
) -> Met<'a, D>
    requires ready { AreReady queue.now board.now issuer side }
    requires short { number + length text.now ≤ 2 ^ 30 }
    ensures { IssuedBeside queue.now board.now number browser text.now issuer side result }
{
    thread::scope(
        thread::scope_env(),
        rt,
        move |scope| -> Met<'_, D>
            requires { AreReady queue.now board.now issuer side × (number + length text.now ≤ 2 ^ 30) }
            ensures { IssuedBeside queue.entry.now board.entry.now number browser text.entry.now issuer side result }
        {
            let works = Works {
                queue,
                board,
                side: Snapshot::of(&side),
            };
            match scope.spawn_with(
                works,
                move || -> Report<SessionMachine, TabsMachine, D>
                    requires { IsWriterReady queue.now board.now side }
                    ensures { WorksAs queue.entry.now board.entry.now side result }
                { work(rt, queue, board, side, clock) },
            ) {
                Ok(writer) => {
                    let (issuer, browser, issued) = issue(
                        rt, queue, board, gate, alloc, issuer, browser, number, text,
                    );
                    Met {
                        report: writer.join(rt),
                        issuer,
                        browser,
                        issued: Some(issued),
                    }
                }
                Err(refused) => {
                    let (report, issuer) = end_here(rt, queue, issuer, refused.value);
                    Met {
                        report,
                        issuer,
                        browser,
                        issued: None,
                    }
                }
            }
        },
    )
}

// Handles what is put, up to the end.
fn work<R: Wait, D: SessionDisk, C: Clock + Drop>(
    rt: &R,
    queue: &RunQueue,
    board: &AckBoard,
    side: WriterSide<D>,
    mut clock: C,
) -> Report<SessionMachine, TabsMachine, D>
    requires { IsWriterReady queue.now board.now side }
    ensures { WorksAs queue.now board.now side result }
{
    let WriterSide {
        pass,
        seat,
        writers,
    } = side;
    worker(rt, queue, pass, board, seat, writers, &mut clock)
}

// Puts the end, and does here what no thread could be started for.
fn end_here<T, F: FnOnce() -> T, R: Wait>(
    rt: &R,
    queue: &RunQueue,
    issuer: Issuer,
    job: F,
) -> (T, Issuer)
    requires pass { IsIssuerOf queue.now issuer.pass }
    requires job { F.pre job }
    ensures job { F.post job result.0 }
    ensures pass { IsIssuerOf queue.now result.1.pass }
    ensures sends { sent result.1.pass ≡ sent issuer.pass ++ Item.End ∷ [] }
    ensures seat { result.1.seat ≡ issuer.seat }
{
    let Issuer { pass, seat, puts } = issuer;
    let pass = queue.put(rt, pass, QueueItem::new(Item::End));
    (job(), Issuer { pass, seat, puts })
}
