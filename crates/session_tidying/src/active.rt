//! The command that makes a shown window the active one.
ghost use Rattle.std.specs.Prelude.{◌≡◌, ◌++◌, IfOk, OnOk};
ghost use Rattle.window_state.specs.Shown.{tabs_in};
ghost use Rattle.window_state.specs.Views.{active_shown, least_shown, view_windows};
ghost use Rattle.browser_model.specs.Tidying.{activate};
ghost use Rattle.session_tidying.specs.Active.{is_listed};
ghost use Rattle.session_tidying.specs.ShownTabs.{ArePlacesInRange};

use crate::window;
use session_commands::SessionCommand;
use std::alloc::{AllocError, Global};
use window_state::{Rows, SessionState, Shown, Window};

/// Where the active window isn't shown, the least shown one becomes it.
pub(crate) fn push(
    alloc: Global,
    state: &SessionState,
    shown: &Shown<'_>,
    out: &mut Vec<SessionCommand>,
) -> Result<(), AllocError>
    requires { ArePlacesInRange shown.now }
    ensures { OnOk result
        (out.new.items ≡ out.old.items ++ activate
        (active_shown state.now.active (view_windows (λ id. tabs_in id shown.now) state.now.windows))
        state.now.active) }
{
    if is_active_shown(alloc, state, shown)? {
        return Ok(());
    }
    let Some(window) = least_shown(alloc, state.windows(), shown)? else {
        return Ok(());
    };
    out.push(SessionCommand::ActiveWindow { window })?;
    Ok(())
}

fn is_active_shown(
    alloc: Global,
    state: &SessionState,
    shown: &Shown<'_>,
) -> Result<bool, AllocError>
    requires { ArePlacesInRange shown.now }
    ensures { IfOk result (λ is.
        is ≡ is_listed state.now.active (view_windows (λ id. tabs_in id shown.now) state.now.windows)) }
{
    let Some(id) = state.active() else {
        return Ok(false);
    };
    // The active window need not stand.
    if !state.windows().has(id) {
        return Ok(false);
    }
    window::has_shown(alloc, id, shown)
}

fn least_shown(
    alloc: Global,
    windows: &Rows<Window>,
    shown: &Shown<'_>,
) -> Result<Option<i32>, AllocError>
    requires { ArePlacesInRange shown.now }
    ensures { IfOk result (λ least. least ≡ least_shown (view_windows (λ id. tabs_in id shown.now) windows.now)) }
{
    for window in windows.iter() {
        if window::has_shown(alloc, window.info.id, shown)? {
            return Ok(Some(window.info.id));
        }
    }
    Ok(None)
}
