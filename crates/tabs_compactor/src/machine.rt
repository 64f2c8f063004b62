//! Closed entries as a machine.
ghost use Rattle.tab_restore_commands.specs.Table.{IsSound};
ghost use Rattle.closed_entries.specs.States.{IsState};
ghost use Rattle.tabs_compactor.specs.TabsKind.{tabs_kind, IsCommand};
ghost use Rattle.tabs_compactor.specs.Laws.TabsLaws.{tabs_lawful};

use crate::{compaction, tidying};
use closed_entries::ClosedState;
use machine_law::Machine;
use std::alloc::{AllocError, Global};
use tab_restore_commands::TabsCommand;

/// The machine of closed tabs and windows. Its compaction takes time and memory in what it restates.
pub struct TabsMachine;

impl Machine for TabsMachine {
    type State = ClosedState;

    type Command = TabsCommand;

    ghost kind = { tabs_kind };

    ghost is_state = { IsState };

    ghost is_sound = { IsSound };

    ghost is_command = { IsCommand };

    ghost lawful = { tabs_lawful };

    fn start(alloc: Global) -> Result<ClosedState, AllocError> {
        ClosedState::start(alloc)
    }

    fn apply(state: &mut ClosedState, command: &TabsCommand) -> Result<(), AllocError> {
        closed_entries::apply(state, command)
    }

    fn compact(alloc: Global, state: &ClosedState) -> Result<Vec<TabsCommand>, AllocError> {
        state.known();
        compaction::of(alloc, state)
    }

    fn tidy(alloc: Global, state: &ClosedState) -> Result<Vec<TabsCommand>, AllocError> {
        tidying::tidy(alloc, state)
    }

    fn read(alloc: Global, id: u8, payload: &[u8]) -> Result<TabsCommand, AllocError> {
        let command = TabsCommand::read(alloc, id, payload)?;
        command.known_in_range();
        Ok(command)
    }

    fn write(command: &TabsCommand, out: &mut Vec<u8>) -> Result<u8, AllocError> {
        let id = command.id();
        command.write(out)?;
        Ok(id)
    }

    /// False for all commands. It takes no memory.
    fn covers(_first: &TabsCommand, _second: &TabsCommand) -> bool {
        false
    }

    fn copy(command: &TabsCommand) -> Result<TabsCommand, AllocError> {
        command.copy()
    }

    fn known_state(state: &ClosedState) {
        state.known();
    }

    fn known_command(command: &TabsCommand) {
        command.known_in_range();
    }
}
