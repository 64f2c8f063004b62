//! The commands that close one more entry.
ghost use Rattle.std.specs.Prelude.{◌≡◌, ◌≤◌, length, IfOk};
ghost use Rattle.std.specs.List.{AllByRecursion};
ghost use Rattle.machine_law.specs.Kind.{fold};
ghost use Rattle.closed_entries.specs.declared.limits.TheConstants.{ENTRIES};
ghost use Rattle.closed_entries.specs.States.{IsEntry, State};
ghost use Rattle.closed_entries.specs.Step.{opened};
ghost use Rattle.tabs_compactor.specs.Compaction.{entry_commands};
ghost use Rattle.tabs_compactor.specs.TabsKind.{tabs_kind, IsCommand};

use crate::{compaction, weight};
use closed_entries::Entry;
use std::alloc::{AllocError, Global};
use tab_restore_commands::TabsCommand;

/// The commands after which the entry is the newest of a state that awaits no tabs, and open. Each text is copied once,
/// and the list is reserved at once.
pub fn entry_commands(alloc: Global, entry: &Entry) -> Result<Vec<TabsCommand>, AllocError>
    requires { IsEntry entry.now }
    ensures commands { IfOk result (λ commands. commands.items ≡ entry_commands 0 entry.now) }
    ensures sound { IfOk result (λ commands. AllByRecursion IsCommand commands.items) }
    ensures closes { (s : State) → s.awaited ≡ 0 → length s.entries ≤ ENTRIES →
        IfOk result (λ commands. fold tabs_kind s commands.items ≡ opened entry.now 0 s) }
{
    let mut commands = Vec::with_capacity(alloc, weight::of_entry(entry))?;
    compaction::push_entry(alloc, entry, 0, &mut commands)?;
    Ok(commands)
}
