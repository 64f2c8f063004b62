//! What a line asks of the journals: a sync of both, or commands of both families and then a compaction of both.
//! All but a sync is handled here, and nothing is written of it.
ghost use Rattle.std.specs.Prelude.{◌≡◌, None};
ghost use Rattle.std.specs.List.{AllByRecursion};
ghost use Rattle.compactor.specs.session.SessionKind.{IsCommand as IsSessionCommand};
ghost use Rattle.tabs_compactor.specs.TabsKind.{IsCommand as IsTabsCommand};
ghost use Rattle.script_run.specs.Acting.{compaction_steps, wants_compaction, work_steps};
ghost use Rattle.script_run.specs.Doing.{DoesUnsaid};
ghost use Rattle.script_run.specs.Segments.{wants_sync};

use crate::halt::Halt;
use crate::handling::{handle_commands, handle_item};
use compactor::SessionMachine;
use script_lines::Verb;
use session_commands::SessionCommand;
use session_disk::{Clock, SessionDisk};
use tab_restore_commands::TabsCommand;
use tabs_compactor::TabsMachine;
use writer_core::{Item, Writers};

/// What a line asks.
#[derive(Drop)]
pub enum Asked {
    /// A sync of both journals, and its line.
    Sync,
    /// All else.
    Work(Work),
}

/// Commands for the session's journal, those for the journal of the tabs, and whether a compaction of both follows.
#[derive(Drop)]
pub struct Work {
    pub session: Vec<SessionCommand>,
    pub tabs: Vec<TabsCommand>,
    pub compacts: bool,
}

/// Whether a verb asks for a sync.
pub(crate) fn wants_sync(verb: &Verb) -> bool
    ensures { result ≡ wants_sync verb.now }
{
    matches!(verb, Verb::Sync)
}

/// Whether a verb asks for a compaction.
pub(crate) fn wants_compaction(verb: &Verb) -> bool
    ensures { result ≡ wants_compaction verb.now }
{
    matches!(verb, Verb::Compact)
}

/// Handles what a line asks, in its order, up to the first refusal. It takes what the calls of the journals take.
pub(crate) fn handle_work<D: SessionDisk, C: Clock>(
    writers: &mut Writers<SessionMachine, TabsMachine, D>,
    clock: &mut C,
    work: Work,
) -> Result<(), Halt>
    requires session_works { writers.old.session.failed ≡ None }
    requires tabs_work { writers.old.tabs.failed ≡ None }
    requires session { AllByRecursion IsSessionCommand work.session.items }
    requires tabs { AllByRecursion IsTabsCommand work.tabs.items }
    ensures { DoesUnsaid (work_steps work) writers.old writers.new result }
{
    let Work {
        session,
        tabs,
        compacts,
    } = work;
    if let Err(halt) = handle_commands(writers, clock, session, tabs) {
        return Err(halt);
    }
    match handle_compaction(writers, clock, compacts) {
        Ok(()) => Ok(()),
        Err(halt) => Err(halt),
    }
}

// Compacts both journals, where that is asked.
fn handle_compaction<D: SessionDisk, C: Clock>(
    writers: &mut Writers<SessionMachine, TabsMachine, D>,
    clock: &mut C,
    compacts: bool,
) -> Result<(), Halt>
    requires session_works { writers.old.session.failed ≡ None }
    requires tabs_work { writers.old.tabs.failed ≡ None }
    ensures { DoesUnsaid (compaction_steps compacts) writers.old writers.new result }
{
    match compacts {
        true => handle_item(writers, clock, Item::Compact),
        false => Ok(()),
    }
}
