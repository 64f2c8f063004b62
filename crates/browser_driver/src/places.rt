//! Tabs are told their places.
//! Commands say the places; edits of the tabs follow them and take no memory.
ghost use Rattle.std.specs.Prelude.{◌≡◌, ◌+◌, ◌≤◌, ◌++◌, length, OnOk};
ghost use Rattle.browser_driver.specs.Places.{places_of, with_places};

use crate::edits::edit_tab;
use session_commands::SessionCommand;
use std::alloc::AllocError;
use window_state::{SessionState, TabEdit};

/// The commands that tell tabs their places, from a first one on.
pub(crate) fn push_places(
    commands: &mut Vec<SessionCommand>,
    first: u32,
    ids: &[i32],
) -> Result<(), AllocError>
    requires { first + length ids.now ≤ 1048576 }
    ensures { OnOk result (commands.new.items ≡ commands.old.items ++ places_of first ids.now) }
{
    let mut place = first;
    for id in ids {
        commands.push(SessionCommand::TabIndex {
            tab: *id,
            index: place as i32,
        })?;
        place += 1;
    }
    Ok(())
}

/// The tabs get their places, from a first one on. It takes no memory.
pub(crate) fn set_places(state: &mut SessionState, first: u32, ids: &[i32])
    requires { first + length ids.now ≤ 1048576 }
    ensures { state.new ≡ with_places first ids.now state.old }
{
    let mut place = first;
    for id in ids {
        edit_tab(state, *id, TabEdit::Index(place as i32));
        place += 1;
    }
}
