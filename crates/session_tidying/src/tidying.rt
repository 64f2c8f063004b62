//! The commands that tidy a state: tabs and windows that aren't shown are closed, then the shown ones are put in
//! order.
ghost use Rattle.std.specs.Prelude.{◌≡◌, ◌++◌, not, filter, IfOk, OnOk};
ghost use Rattle.std.specs.List.{AllByRecursion};
ghost use Rattle.session_commands.specs.Table.{IsInRange, IsSound};
ghost use Rattle.window_state.specs.Views.{view};
ghost use Rattle.replay_machine.specs.Step.{fold};
ghost use Rattle.browser_model.specs.Browsers.{Matches};
ghost use Rattle.browser_model.specs.Tidied.{tidied};
ghost use Rattle.browser_model.specs.Tidying.{close_tabs, is_tab_shown, tidying};

use crate::{active, window};
use session_commands::SessionCommand;
use std::alloc::{AllocError, Global};
use window_state::{Rows, SessionState, Shown, Tab};

/// The commands after which a state shows the same as before, and each of its tabs and windows is shown. A tab then has
/// its position in its window as its index, its pages from 0 without a gap, and its current at one of them. Groups
/// stay. It makes O((t + w) log t) comparisons for t tabs and w windows, takes time in the number of pages, and copies
/// no page and no text.
pub fn tidy(alloc: Global, state: &SessionState) -> Result<Vec<SessionCommand>, AllocError>
    ensures tidying { IfOk result (λ commands. commands.items ≡ tidying state.now) }
    ensures sound { IfOk result (λ commands. AllByRecursion IsSound commands.items) }
    ensures ranged { IfOk result (λ commands. AllByRecursion IsInRange commands.items) }
    ensures view { IfOk result (λ commands. view (fold state.now commands.items) ≡ view state.now) }
    ensures matches { IfOk result (λ commands. Matches (fold state.now commands.items) (tidied state.now)) }
{
    state.known();
    let shown = Shown::of(alloc, state.tabs())?;
    let mut commands = Vec::new(alloc);
    close_tabs(state.tabs(), &mut commands)?;
    window::close_hidden(alloc, state.windows(), &shown, &mut commands)?;
    window::push_shown(alloc, state.windows(), &shown, &mut commands)?;
    active::push(alloc, state, &shown, &mut commands)?;
    Ok(commands)
}

// Each tab that isn't shown is closed.
fn close_tabs(tabs: &Rows<Tab>, out: &mut Vec<SessionCommand>) -> Result<(), AllocError>
    ensures { OnOk result
        (out.new.items ≡ out.old.items ++ close_tabs (filter (λ t. not (is_tab_shown t)) tabs.now)) }
{
    for tab in tabs.iter() {
        if !is_shown(tab) {
            out.push(SessionCommand::TabClosed {
                tab: tab.info.id,
                time: 0,
            })?;
        }
    }
    Ok(())
}

fn is_shown(tab: &Tab) -> bool
    ensures { result ≡ is_tab_shown tab.now }
{
    if tab.window.is_none() {
        return false;
    }
    !tab.pages.is_empty()
}
