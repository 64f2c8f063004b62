//! A session as a machine.
ghost use Rattle.session_commands.specs.Table.{IsSound};
ghost use Rattle.window_state.specs.States.{IsState};
ghost use Rattle.compactor.specs.session.SessionKind.{session_kind, IsCommand};
ghost use Rattle.compactor.specs.session.Laws.SessionLaws.{session_lawful};

use super::{compaction, covering};
use machine_law::Machine;
use session_commands::SessionCommand;
use std::alloc::{AllocError, Global};
use window_state::SessionState;

/// The machine of a session's windows and tabs. Its compaction takes time and memory in what it restates.
pub struct SessionMachine;

impl Machine for SessionMachine {
    type State = SessionState;

    type Command = SessionCommand;

    ghost kind = { session_kind };

    ghost is_state = { IsState };

    ghost is_sound = { IsSound };

    ghost is_command = { IsCommand };

    ghost lawful = { session_lawful };

    fn start(alloc: Global) -> Result<SessionState, AllocError> {
        SessionState::start(alloc)
    }

    fn apply(state: &mut SessionState, command: &SessionCommand) -> Result<(), AllocError> {
        replay_machine::apply(state, command)
    }

    fn compact(alloc: Global, state: &SessionState) -> Result<Vec<SessionCommand>, AllocError> {
        state.known();
        compaction::of(alloc, state)
    }

    fn tidy(alloc: Global, state: &SessionState) -> Result<Vec<SessionCommand>, AllocError> {
        session_tidying::tidy(alloc, state)
    }

    fn read(alloc: Global, id: u8, payload: &[u8]) -> Result<SessionCommand, AllocError> {
        let command = SessionCommand::read(alloc, id, payload)?;
        command.known_in_range();
        Ok(command)
    }

    fn write(command: &SessionCommand, out: &mut Vec<u8>) -> Result<u8, AllocError> {
        let id = command.id();
        command.write(out)?;
        Ok(id)
    }

    /// True where both commands update the page at the same index of the same tab: the second puts its page in the
    /// place of the first one's. It takes no memory.
    fn covers(first: &SessionCommand, second: &SessionCommand) -> bool {
        covering::same_place(first, second)
    }

    fn copy(command: &SessionCommand) -> Result<SessionCommand, AllocError> {
        command.copy()
    }

    fn known_state(state: &SessionState) {
        state.known();
    }

    fn known_command(command: &SessionCommand) {
        command.known_in_range();
    }
}
