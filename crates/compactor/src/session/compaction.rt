//! The commands that restate a state.
ghost use Rattle.std.specs.Prelude.{◌≡◌, ◌++◌, map, flat_map, IfOk, OnOk};
ghost use Rattle.session_commands.specs.declared.command.SessionCommand.TheVariants.{GroupData, ActiveWindow};
ghost use Rattle.compaction_runs.specs.FieldCommands.{given};
ghost use Rattle.compactor.specs.session.Compaction.{compaction, tab_commands, window_commands};

use super::{tab, weight, window};
use navigation_entry::GroupInfo;
use session_commands::SessionCommand;
use std::alloc::{AllocError, Global};
use window_state::{Rows, SessionState, Tab, Window};

/// Each text is copied once, and the list is reserved at once.
pub(crate) fn of(alloc: Global, state: &SessionState) -> Result<Vec<SessionCommand>, AllocError>
    ensures { IfOk result (λ commands. commands.items ≡ compaction state.now) }
{
    let mut commands = Vec::with_capacity(alloc, weight::of(state))?;
    push_windows(alloc, state.windows(), &mut commands)?;
    push_tabs(alloc, state.tabs(), &mut commands)?;
    push_groups(state.groups(), &mut commands)?;
    push_active(state.active(), &mut commands)?;
    Ok(commands)
}

fn push_windows(
    alloc: Global,
    windows: &Rows<Window>,
    out: &mut Vec<SessionCommand>,
) -> Result<(), AllocError>
    ensures { OnOk result (out.new.items ≡ out.old.items ++ flat_map window_commands windows.now) }
{
    for window in windows.iter() {
        window::push(alloc, window, out)?;
    }
    Ok(())
}

fn push_tabs(
    alloc: Global,
    tabs: &Rows<Tab>,
    out: &mut Vec<SessionCommand>,
) -> Result<(), AllocError>
    ensures { OnOk result (out.new.items ≡ out.old.items ++ flat_map tab_commands tabs.now) }
{
    for tab in tabs.iter() {
        tab::push(alloc, tab, out)?;
    }
    Ok(())
}

fn push_groups(groups: &Rows<GroupInfo>, out: &mut Vec<SessionCommand>) -> Result<(), AllocError>
    ensures { OnOk result (out.new.items ≡ out.old.items ++ map (λ group. GroupData group) groups.now) }
{
    for group in groups.iter() {
        let group = group.copy()?;
        out.push(SessionCommand::GroupData { group })?;
    }
    Ok(())
}

fn push_active(active: Option<i32>, out: &mut Vec<SessionCommand>) -> Result<(), AllocError>
    ensures { OnOk result (out.new.items ≡ out.old.items ++ given (λ window. ActiveWindow window) active) }
{
    let Some(window) = active else {
        return Ok(());
    };
    out.push(SessionCommand::ActiveWindow { window })?;
    Ok(())
}
