//! The changes of tabs and of windows that commands bring, with their texts in memory of their own.
ghost use Rattle.std.specs.Prelude.{◌≡◌, IfOk};
ghost use Rattle.replay_machine.specs.Step.{group_where};
ghost use Rattle.replay_machine.specs.Parts.{page_change, info_change, tab_change, window_change};

use session_commands::SessionCommand;
use std::alloc::AllocError;
use window_state::{GroupId, TabChange, WindowChange};

/// The tab that the command changes, and how.
pub(crate) fn tab_change(command: &SessionCommand) -> Result<Option<(i32, TabChange)>, AllocError>
    ensures { IfOk result (λ change. change ≡ tab_change command.now) }
{
    if let Some(change) = page_change(command)? {
        return Ok(Some(change));
    }
    info_change(command)
}

// A change of a tab's place or pages.
fn page_change(command: &SessionCommand) -> Result<Option<(i32, TabChange)>, AllocError>
    ensures { IfOk result (λ change. change ≡ page_change command.now) }
{
    match command {
        SessionCommand::TabIndex { tab, index } => Ok(Some((*tab, TabChange::Index(*index)))),
        SessionCommand::UpdateNavigation {
            tab,
            index,
            navigation,
        } => {
            let navigation = navigation.copy()?;
            Ok(Some((*tab, TabChange::Page(*index, navigation))))
        }
        SessionCommand::SelectNavigation { tab, index } => {
            Ok(Some((*tab, TabChange::Current(*index))))
        }
        SessionCommand::PrunedBack { tab, index } => Ok(Some((*tab, TabChange::PruneBack(*index)))),
        SessionCommand::PrunedFront { tab, count } => {
            Ok(Some((*tab, TabChange::PruneFront(*count))))
        }
        SessionCommand::Pruned { tab, index, count } => {
            Ok(Some((*tab, TabChange::Prune(*index, *count))))
        }
        _ => Ok(None),
    }
}

// A change of what is known of a tab.
fn info_change(command: &SessionCommand) -> Result<Option<(i32, TabChange)>, AllocError>
    ensures { IfOk result (λ change. change ≡ info_change command.now) }
{
    match command {
        SessionCommand::Pinned { tab, pinned } => Ok(Some((*tab, TabChange::Pinned(*pinned)))),
        SessionCommand::Extension { tab, extension, .. } => {
            Ok(Some((*tab, TabChange::Extension(extension.copy()?))))
        }
        SessionCommand::SessionStorage { tab, storage, .. } => {
            Ok(Some((*tab, TabChange::Storage(storage.copy()?))))
        }
        SessionCommand::TabGuid { tab, guid, .. } => {
            Ok(Some((*tab, TabChange::Guid(guid.copy()?))))
        }
        SessionCommand::UserAgent { tab, rest } => Ok(Some((*tab, TabChange::Agent(rest.copy()?)))),
        SessionCommand::LastActive { tab, time } => Ok(Some((*tab, TabChange::LastActive(*time)))),
        SessionCommand::TabGroup {
            tab,
            high,
            low,
            grouped,
        } => Ok(Some((*tab, TabChange::Group(group(*high, *low, *grouped))))),
        SessionCommand::TabExtra {
            tab,
            key,
            value,
            ..
        } => {
            let key = key.copy()?;
            let value = value.copy()?;
            Ok(Some((*tab, TabChange::ExtraValue(key, value))))
        }
        _ => Ok(None),
    }
}

/// The window that the command changes, and how.
pub(crate) fn window_change(
    command: &SessionCommand,
) -> Result<Option<(i32, WindowChange)>, AllocError>
    ensures { IfOk result (λ change. change ≡ window_change command.now) }
{
    match command {
        SessionCommand::SelectTab { window, index } => {
            Ok(Some((*window, WindowChange::Selected(*index))))
        }
        SessionCommand::WindowKind { window, kind } => {
            Ok(Some((*window, WindowChange::Kind(*kind))))
        }
        SessionCommand::WindowBounds { window, bounds } => {
            Ok(Some((*window, WindowChange::Bounded(*bounds))))
        }
        SessionCommand::WindowApp { window, name, .. } => {
            Ok(Some((*window, WindowChange::App(name.copy()?))))
        }
        SessionCommand::Workspace {
            window,
            workspace,
            ..
        } => Ok(Some((*window, WindowChange::Workspace(workspace.copy()?)))),
        SessionCommand::UserTitle { window, title, .. } => {
            Ok(Some((*window, WindowChange::Title(title.copy()?))))
        }
        SessionCommand::AllWorkspaces { window, all } => {
            Ok(Some((*window, WindowChange::AllWorkspaces(*all))))
        }
        SessionCommand::WindowExtra {
            window,
            key,
            value,
            ..
        } => {
            let key = key.copy()?;
            let value = value.copy()?;
            Ok(Some((*window, WindowChange::ExtraValue(key, value))))
        }
        _ => Ok(None),
    }
}

fn group(high: u64, low: u64, grouped: bool) -> Option<GroupId>
    ensures { result ≡ group_where high low grouped }
{
    if grouped {
        return Some(GroupId { high, low });
    }
    None
}
