//! The command that leaves no entry open.
ghost use Rattle.std.specs.Prelude.{◌≡◌, IfOk};
ghost use Rattle.std.specs.List.{AllByRecursion};
ghost use Rattle.closed_entries.specs.Step.{fold};
ghost use Rattle.tabs_compactor.specs.TabsKind.{IsCommand};
ghost use Rattle.tabs_compactor.specs.Tidying.{tidied, tidying};

use closed_entries::ClosedState;
use std::alloc::{AllocError, Global};
use tab_restore_commands::TabsCommand;

/// The commands after which the same entries stand, none is open, and no tab is awaited. It takes constant time.
pub fn tidy(alloc: Global, state: &ClosedState) -> Result<Vec<TabsCommand>, AllocError>
    ensures tidying { IfOk result (λ commands. commands.items ≡ tidying state.now) }
    ensures commands { IfOk result (λ commands. AllByRecursion IsCommand commands.items) }
    ensures tidied { IfOk result (λ commands. fold state.now commands.items ≡ tidied state.now) }
{
    state.known();
    let mut commands = Vec::new(alloc);
    if !state.open_entry() {
        return Ok(commands);
    }
    commands.push(TabsCommand::RestoredEntry { id: 0 })?;
    Ok(commands)
}
