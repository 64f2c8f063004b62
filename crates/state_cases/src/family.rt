//! The machines of the families, as cases ask of them.
ghost use Rattle.std.specs.Prelude.{◌≤◌, length};

use crate::closed_text::closed_text;
use crate::state_text::state_text;
use crate::table;
use closed_entries::ClosedState;
use compactor::SessionMachine;
use machine_law::Machine;
use payload_rows::PayloadFault;
use session_commands::SessionCommand;
use std::alloc::{AllocError, Global};
use tab_restore_commands::TabsCommand;
use tabs_compactor::TabsMachine;
use window_state::SessionState;

pub(crate) trait Family: Machine {
    /// The table of its commands.
    fn table() -> &'static str;

    fn is_raw(command: &Self::Command) -> bool;

    fn why_raw(id: u8, payload: &[u8]) -> Option<PayloadFault>
        requires { length payload.now ≤ 65534 };

    /// The text of a state.
    fn text(alloc: Global, state: &Self::State) -> Result<String, AllocError>;
}

impl Family for SessionMachine {
    fn table() -> &'static str {
        table::SESSION
    }

    fn is_raw(command: &SessionCommand) -> bool {
        matches!(command, SessionCommand::Raw(_))
    }

    fn why_raw(id: u8, payload: &[u8]) -> Option<PayloadFault> {
        SessionCommand::why_raw(id, payload)
    }

    fn text(alloc: Global, state: &SessionState) -> Result<String, AllocError> {
        let copy = state.copy()?;
        state_text(alloc, &copy)
    }
}

impl Family for TabsMachine {
    fn table() -> &'static str {
        table::TABS
    }

    fn is_raw(command: &TabsCommand) -> bool {
        matches!(command, TabsCommand::Raw(_))
    }

    fn why_raw(id: u8, payload: &[u8]) -> Option<PayloadFault> {
        TabsCommand::why_raw(id, payload)
    }

    fn text(alloc: Global, state: &ClosedState) -> Result<String, AllocError> {
        closed_text(alloc, state)
    }
}
