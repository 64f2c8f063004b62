//! The commands that restate a closed window and its tabs.
ghost use Rattle.std.specs.Prelude.{◌≡◌, ◌≤◌, ◌+◌, ◌++◌, [], ◌∷◌, pos, length, flat_map, OnOk};
ghost use Rattle.tab_restore_commands.specs.declared.command.TabsCommand.TheVariants.{UserTitle, WindowApp, WindowEntry};
ghost use Rattle.closed_entries.specs.Limits.{tab_limit};
ghost use Rattle.compaction_runs.specs.FieldCommands.{given};
ghost use Rattle.tabs_compactor.specs.Compaction.{tab_commands, window_commands};

use crate::tab;
use closed_entries::{ClosedTab, ClosedWindow};
use pickle_cells::Blob;
use std::alloc::{AllocError, Global};
use tab_restore_commands::TabsCommand;

/// The window's count is that of its tabs and of those that it awaits.
pub(crate) fn push(
    alloc: Global,
    window: &ClosedWindow,
    awaited: u32,
    out: &mut Vec<TabsCommand>,
) -> Result<(), AllocError>
    requires { length window.now.tabs + awaited ≤ tab_limit }
    ensures { OnOk result (out.new.items ≡ out.old.items ++ window_commands awaited window.now) }
{
    push_entry(alloc, window, awaited, out)?;
    push_app(alloc, window, out)?;
    push_title(alloc, window, out)?;
    push_tabs(alloc, window.tabs.as_slice(), out)?;
    Ok(())
}

fn push_entry(
    alloc: Global,
    window: &ClosedWindow,
    awaited: u32,
    out: &mut Vec<TabsCommand>,
) -> Result<(), AllocError>
    requires { length window.now.tabs + awaited ≤ tab_limit }
    ensures { OnOk result
        (out.new.items ≡ out.old.items ++ WindowEntry window.now.id window.now.selected
        (pos (length window.now.tabs + awaited)) window.now.time window.now.bounds [] ∷ []) }
{
    let count = (window.tabs.len() + awaited as usize) as i32;
    let tail = Blob::from_slice(alloc, &[])?;
    out.push(TabsCommand::WindowEntry {
        window: window.id,
        selected: window.selected,
        count,
        time: window.time,
        bounds: window.bounds,
        tail,
    })?;
    Ok(())
}

fn push_app(
    alloc: Global,
    window: &ClosedWindow,
    out: &mut Vec<TabsCommand>,
) -> Result<(), AllocError>
    ensures { OnOk result
        (out.new.items ≡ out.old.items ++ given (λ text. WindowApp window.now.id text []) window.now.app) }
{
    let Some(app) = &window.app else {
        return Ok(());
    };
    let name = app.copy()?;
    let tail = Blob::from_slice(alloc, &[])?;
    out.push(TabsCommand::WindowApp {
        window: window.id,
        name,
        tail,
    })?;
    Ok(())
}

fn push_title(
    alloc: Global,
    window: &ClosedWindow,
    out: &mut Vec<TabsCommand>,
) -> Result<(), AllocError>
    ensures { OnOk result
        (out.new.items ≡ out.old.items ++ given (λ text. UserTitle window.now.id text []) window.now.title) }
{
    let Some(title) = &window.title else {
        return Ok(());
    };
    let title = title.copy()?;
    let tail = Blob::from_slice(alloc, &[])?;
    out.push(TabsCommand::UserTitle {
        window: window.id,
        title,
        tail,
    })?;
    Ok(())
}

fn push_tabs(
    alloc: Global,
    tabs: &[ClosedTab],
    out: &mut Vec<TabsCommand>,
) -> Result<(), AllocError>
    ensures { OnOk result (out.new.items ≡ out.old.items ++ flat_map tab_commands tabs.now) }
{
    for tab in tabs {
        tab::push(alloc, tab, out)?;
    }
    Ok(())
}
