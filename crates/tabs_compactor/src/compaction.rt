//! The commands that restate closed entries.
ghost use Rattle.std.specs.Prelude.{◌≡◌, ◌<◌, ◌++◌, flat_map, IfOk, OnOk};
ghost use Rattle.std.specs.List.{AllByRecursion};
ghost use Rattle.closed_entries.specs.LastItem.{HoldsOfLast};
ghost use Rattle.closed_entries.specs.States.{HasRoom, IsEntry};
ghost use Rattle.tabs_compactor.specs.Compaction.{closing, compaction, entries_commands, entry_commands};

use crate::{tab, weight, window};
use closed_entries::{ClosedState, Entry};
use std::alloc::{AllocError, Global};
use tab_restore_commands::TabsCommand;

/// Each text is copied once, and the list is reserved at once.
pub(crate) fn of(alloc: Global, state: &ClosedState) -> Result<Vec<TabsCommand>, AllocError>
    ensures { IfOk result (λ commands. commands.items ≡ compaction state.now) }
{
    state.known();
    let mut commands = Vec::with_capacity(alloc, weight::of(state))?;
    push_entries(alloc, state.entries(), state.awaited(), &mut commands)?;
    push_closing(state.entries(), state.open_entry(), &mut commands)?;
    Ok(commands)
}

// Only the last entry awaits tabs.
fn push_entries(
    alloc: Global,
    entries: &[Entry],
    awaited: u32,
    out: &mut Vec<TabsCommand>,
) -> Result<(), AllocError>
    requires each { AllByRecursion IsEntry entries.now }
    requires room { 0 < awaited → HoldsOfLast (HasRoom awaited) entries.now }
    ensures { OnOk result (out.new.items ≡ out.old.items ++ entries_commands awaited entries.now) }
{
    let Some((last, before)) = entries.split_last() else {
        return Ok(());
    };
    push_whole(alloc, before, out)?;
    push_entry(alloc, last, awaited, out)
}

fn push_whole(
    alloc: Global,
    entries: &[Entry],
    out: &mut Vec<TabsCommand>,
) -> Result<(), AllocError>
    requires { AllByRecursion IsEntry entries.now }
    ensures { OnOk result (out.new.items ≡ out.old.items ++ flat_map (entry_commands 0) entries.now) }
{
    for entry in entries {
        push_entry(alloc, entry, 0, out)?;
    }
    Ok(())
}

pub(crate) fn push_entry(
    alloc: Global,
    entry: &Entry,
    awaited: u32,
    out: &mut Vec<TabsCommand>,
) -> Result<(), AllocError>
    requires each { IsEntry entry.now }
    requires room { 0 < awaited → HasRoom awaited entry.now }
    ensures { OnOk result (out.new.items ≡ out.old.items ++ entry_commands awaited entry.now) }
{
    match entry {
        Entry::Tab(tab) => tab::push(alloc, tab, out),
        Entry::Window(window) => window::push(alloc, window, awaited, out),
    }
}

fn push_closing(
    entries: &[Entry],
    is_open: bool,
    out: &mut Vec<TabsCommand>,
) -> Result<(), AllocError>
    ensures { OnOk result (out.new.items ≡ out.old.items ++ closing entries.now is_open) }
{
    if entries.is_empty() || is_open {
        return Ok(());
    }
    out.push(TabsCommand::RestoredEntry { id: 0 })?;
    Ok(())
}
