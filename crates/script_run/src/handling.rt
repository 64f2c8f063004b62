//! Items and commands over both journals, as steps of a run.
//! Nothing is written of them.
ghost use Rattle.std.specs.Prelude.{◌≡◌, [], ◌∷◌, None, OnOk};
ghost use Rattle.std.specs.List.{AllByRecursion};
ghost use Rattle.compactor.specs.session.SessionKind.{IsCommand as IsSessionCommand};
ghost use Rattle.tabs_compactor.specs.TabsKind.{IsCommand as IsTabsCommand};
ghost use Rattle.writer_core.specs.Jobs.{IsJob, session_job, tabs_job};
ghost use Rattle.script_run.specs.Acting.{command_steps};
ghost use Rattle.script_run.specs.Doing.{DoesUnsaid};
ghost use Rattle.script_run.specs.Steps.{Handle};
ghost use Rattle.script_run.specs.Syncing.{SyncsBoth};

use crate::halt::Halt;
use compactor::SessionMachine;
use session_commands::SessionCommand;
use session_disk::{Clock, SessionDisk};
use tab_restore_commands::TabsCommand;
use tabs_compactor::TabsMachine;
use writer_core::{Item, Writers, handle, handle_session, handle_tabs};

/// Handles one item, which takes what the calls of the journals take.
pub(crate) fn handle_item<D: SessionDisk, C: Clock>(
    writers: &mut Writers<SessionMachine, TabsMachine, D>,
    clock: &mut C,
    item: Item<SessionCommand, TabsCommand>,
) -> Result<(), Halt>
    requires session_works { writers.old.session.failed ≡ None }
    requires tabs_work { writers.old.tabs.failed ≡ None }
    requires session { IsJob IsSessionCommand (session_job item) }
    requires tabs { IsJob IsTabsCommand (tabs_job item) }
    ensures steps { DoesUnsaid (Handle item ∷ []) writers.old writers.new result }
    ensures synced { OnOk result (SyncsBoth item writers.old writers.new) }
{
    match handle(writers, clock, item) {
        Ok(()) => Ok(()),
        Err(stopped) => Err(Halt::Journal(stopped)),
    }
}

/// Handles commands of the session, then those of the tabs, up to the first refusal, which takes what the calls of the
/// journals take.
pub(crate) fn handle_commands<D: SessionDisk, C: Clock>(
    writers: &mut Writers<SessionMachine, TabsMachine, D>,
    clock: &mut C,
    session: Vec<SessionCommand>,
    tabs: Vec<TabsCommand>,
) -> Result<(), Halt>
    requires session_works { writers.old.session.failed ≡ None }
    requires tabs_work { writers.old.tabs.failed ≡ None }
    requires session { AllByRecursion IsSessionCommand session.items }
    requires tabs { AllByRecursion IsTabsCommand tabs.items }
    ensures { DoesUnsaid (command_steps session.items tabs.items) writers.old writers.new result }
{
    if let Err(stopped) = handle_session(writers, clock, session) {
        return Err(Halt::Journal(stopped));
    }
    match handle_tabs(writers, clock, tabs) {
        Ok(()) => Ok(()),
        Err(stopped) => Err(Halt::Journal(stopped)),
    }
}
