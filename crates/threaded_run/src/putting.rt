//! Items put into the queue of a run, in the order in which they are to be handled.
//! A put waits where the queue is full, and takes no memory.
ghost use Rattle.std.specs.Prelude.{◌≡◌, [], ◌∷◌, map};
ghost use Rattle.std.specs.List.{AllByRecursion};
ghost use Rattle.compactor.specs.session.SessionKind.{IsCommand as IsSessionCommand};
ghost use Rattle.tabs_compactor.specs.TabsKind.{IsCommand as IsTabsCommand};
ghost use Rattle.command_queue.specs.Passes.{IsIssuerOf};
ghost use Rattle.writer_core.specs.Jobs.{IsJob, session_job, tabs_job};
ghost use Rattle.threaded_run.specs.Issuers.{Puts};
ghost use Rattle.threaded_run.specs.Issuing.{compaction_items, work_items};

use crate::gate::Gate;
use command_queue::{CommandQueue, IssuerPass, IssuerSeat};
use compactor::SessionMachine;
use script_run::Work;
use session_commands::SessionCommand;
use std::sync::Wait;
use tab_restore_commands::TabsCommand;
use tabs_compactor::TabsMachine;
use writer_core::{Item, QueueItem};

/// The queue of a run.
pub(crate) type RunQueue = CommandQueue<QueueItem<SessionMachine, TabsMachine>>;

/// What the issuer of a run has: its pass of the queue, its seat of the board, and how many items it put so far.
#[derive(Drop)]
pub(crate) struct Issuer {
    pub pass: IssuerPass<QueueItem<SessionMachine, TabsMachine>>,
    pub seat: IssuerSeat,
    pub puts: u64,
}

/// Puts one item, and passes the gate.
pub(crate) fn put<R: Wait, G: Gate>(
    rt: &R,
    queue: &RunQueue,
    gate: &G,
    issuer: Issuer,
    item: Item<SessionCommand, TabsCommand>,
) -> Issuer
    requires pass { IsIssuerOf queue.now issuer.pass }
    requires session { IsJob IsSessionCommand (session_job item) }
    requires tabs { IsJob IsTabsCommand (tabs_job item) }
    ensures { Puts queue.now (item ∷ []) issuer result }
{
    let Issuer { pass, seat, puts } = issuer;
    let pass = queue.put(rt, pass, QueueItem::new(item));
    let puts = puts.saturating_add(1);
    gate.passed(puts);
    Issuer { pass, seat, puts }
}

/// Puts what a line asks: the session's commands, then those of the tabs, then the compaction.
pub(crate) fn put_work<R: Wait, G: Gate>(
    rt: &R,
    queue: &RunQueue,
    gate: &G,
    issuer: Issuer,
    work: Work,
) -> Issuer
    requires pass { IsIssuerOf queue.now issuer.pass }
    requires session { AllByRecursion IsSessionCommand work.session.items }
    requires tabs { AllByRecursion IsTabsCommand work.tabs.items }
    ensures { Puts queue.now (work_items work) issuer result }
{
    let Work {
        session,
        tabs,
        compacts,
    } = work;
    let issuer = put_session(rt, queue, gate, issuer, session);
    let issuer = put_tabs(rt, queue, gate, issuer, tabs);
    put_compaction(rt, queue, gate, issuer, compacts)
}

// Puts commands of the session, in order.
fn put_session<R: Wait, G: Gate>(
    rt: &R,
    queue: &RunQueue,
    gate: &G,
    mut issuer: Issuer,
    commands: Vec<SessionCommand>,
) -> Issuer
    requires pass { IsIssuerOf queue.now issuer.pass }
    requires commands { AllByRecursion IsSessionCommand commands.items }
    ensures { Puts queue.now (map Item.Session commands.items) issuer result }
{
    for command in commands {
        issuer = put(rt, queue, gate, issuer, Item::Session(command));
    }
    issuer
}

// Puts commands of the tabs, in order.
fn put_tabs<R: Wait, G: Gate>(
    rt: &R,
    queue: &RunQueue,
    gate: &G,
    mut issuer: Issuer,
    commands: Vec<TabsCommand>,
) -> Issuer
    requires pass { IsIssuerOf queue.now issuer.pass }
    requires commands { AllByRecursion IsTabsCommand commands.items }
    ensures { Puts queue.now (map Item.Tabs commands.items) issuer result }
{
    for command in commands {
        issuer = put(rt, queue, gate, issuer, Item::Tabs(command));
    }
    issuer
}

// Puts a compaction of both journals, where that is asked.
fn put_compaction<R: Wait, G: Gate>(
    rt: &R,
    queue: &RunQueue,
    gate: &G,
    issuer: Issuer,
    compacts: bool,
) -> Issuer
    requires { IsIssuerOf queue.now issuer.pass }
    ensures { Puts queue.now (compaction_items compacts) issuer result }
{
    match compacts {
        true => put(rt, queue, gate, issuer, Item::Compact),
        false => issuer,
    }
}
