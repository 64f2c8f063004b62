//! One command's step.
ghost use Rattle.std.specs.Prelude.{◌≡◌, OnOk, OnErr};
ghost use Rattle.session_commands.specs.Table.{IsSound};
ghost use Rattle.replay_machine.specs.Step.{step};
ghost use Rattle.replay_machine.specs.Parts.{changed, tab_change, window_change};

use crate::changes::{tab_change, window_change};
use session_commands::SessionCommand;
use std::alloc::AllocError;
use window_state::SessionState;

/// The state after a command, by the table in docs/STATE.md. It copies what the command brings and nothing that the
/// state holds: a step takes time in the logarithm of the number of tabs, windows or groups, for a closed window so
/// much for each tab that goes with it, and in the pages of its tab where it puts one in before others or prunes.
/// After want of memory the state is as it was.
pub fn apply(state: &mut SessionState, command: &SessionCommand) -> Result<(), AllocError>
    requires { IsSound command.now }
    ensures ok { OnOk result (state.new ≡ step state.old command.now) }
    ensures err { OnErr result (state.new ≡ state.old) }
{
    match command {
        SessionCommand::TabWindow { window, tab } => state.place_tab(*window, *tab),
        SessionCommand::GroupData { group } => state.put_group(group.copy()?),
        SessionCommand::ActiveWindow { window } => {
            state.set_active(*window);
            Ok(())
        }
        SessionCommand::TabClosed { tab, .. } => {
            state.close_tab(*tab);
            Ok(())
        }
        SessionCommand::WindowClosed { window, .. } => {
            state.close_window(*window);
            Ok(())
        }
        _ => change(state, command),
    }
}

// What the command changes in one tab or one window, where it does so.
fn change(state: &mut SessionState, command: &SessionCommand) -> Result<(), AllocError>
    requires { IsSound command.now }
    ensures ok { OnOk result (state.new ≡ changed (tab_change command.now) (window_change command.now) state.old) }
    ensures err { OnErr result (state.new ≡ state.old) }
{
    if let Some((tab, change)) = tab_change(command)? {
        return state.change_tab(tab, change);
    }
    if let Some((window, change)) = window_change(command)? {
        return state.change_window(window, change);
    }
    Ok(())
}
