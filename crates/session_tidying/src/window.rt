//! The commands that tidy windows: one in which no tab is shown is closed, and one in which tabs are shown gets these
//! in order.
ghost use Rattle.std.specs.Prelude.{◌≡◌, ◌≤◌, ◌++◌, pos, int_le, not, length, map, filter, position, IfOk, OnOk};
ghost use Rattle.std.specs.Ordering.{int_eq};
ghost use Rattle.std.specs.Map.Iter.{deref};
ghost use Rattle.session_commands.specs.declared.command.SessionCommand.TheVariants.{SelectTab};
ghost use Rattle.tab_pages.specs.PageLists.{has_page};
ghost use Rattle.window_state.specs.Limits.{limit};
ghost use Rattle.window_state.specs.Shown.{tabs_in};
ghost use Rattle.browser_model.specs.Tidying.{close_windows, seen_place, tidy_tabs, tidy_window, tidy_windows};
ghost use Rattle.browser_model.specs.Tidying.{unless};
ghost use Rattle.session_tidying.specs.ShownTabs.{ArePlacesInRange, shown_count};

use crate::tab;
use session_commands::SessionCommand;
use std::alloc::{AllocError, Global};
use tab_pages::position;
use window_state::{Rows, Shown, Tab, Window};

/// Whether a tab is shown in the window with this id, which need not stand.
pub(crate) fn has_shown(alloc: Global, id: i32, shown: &Shown<'_>) -> Result<bool, AllocError>
    requires { ArePlacesInRange shown.now }
    ensures { IfOk result (λ has. has ≡ has_page (tabs_in id shown.now)) }
{
    let tabs = shown.in_window(alloc, id)?;
    Ok(!tabs.is_empty())
}

/// Each window in which no tab is shown is closed.
pub(crate) fn close_hidden(
    alloc: Global,
    windows: &Rows<Window>,
    shown: &Shown<'_>,
    out: &mut Vec<SessionCommand>,
) -> Result<(), AllocError>
    requires { ArePlacesInRange shown.now }
    ensures { OnOk result
        (out.new.items ≡ out.old.items ++ close_windows
        (filter (λ w. not (has_page (tabs_in w.info.id shown.now))) windows.now)) }
{
    for window in windows.iter() {
        if !has_shown(alloc, window.info.id, shown)? {
            out.push(SessionCommand::WindowClosed {
                window: window.info.id,
                time: 0,
            })?;
        }
    }
    Ok(())
}

/// The tabs that are shown in each window are put in order, and the one that it shows is selected.
pub(crate) fn push_shown(
    alloc: Global,
    windows: &Rows<Window>,
    shown: &Shown<'_>,
    out: &mut Vec<SessionCommand>,
) -> Result<(), AllocError>
    requires fits { ArePlacesInRange shown.now }
    requires few { shown_count shown.now ≤ limit }
    ensures { OnOk result
        (out.new.items ≡ out.old.items ++ tidy_windows (λ id. tabs_in id shown.now) windows.now) }
{
    for window in windows.iter() {
        let tabs = shown.in_window(alloc, window.info.id)?;
        push_window(window, tabs.as_slice(), out)?;
    }
    Ok(())
}

fn push_window(
    window: &Window,
    tabs: &[&Tab],
    out: &mut Vec<SessionCommand>,
) -> Result<(), AllocError>
    requires { length tabs.now ≤ limit }
    ensures { OnOk result (out.new.items ≡ out.old.items ++ tidy_window window.now (map deref tabs.now)) }
{
    if tabs.is_empty() {
        return Ok(());
    }
    push_tabs(tabs, out)?;
    push_selected(window, seen_place(window, tabs), out)?;
    Ok(())
}

fn push_tabs(tabs: &[&Tab], out: &mut Vec<SessionCommand>) -> Result<(), AllocError>
    requires { length tabs.now ≤ limit }
    ensures { OnOk result (out.new.items ≡ out.old.items ++ tidy_tabs 0 (map deref tabs.now)) }
{
    for (place, tab) in tabs.iter().enumerate() {
        tab::push(place as u32, tab, out)?;
    }
    Ok(())
}

// The position of the tab that the window shows, among its shown tabs.
fn seen_place(window: &Window, tabs: &[&Tab]) -> u32
    requires { length tabs.now ≤ limit }
    ensures { result ≡ seen_place window.now (map deref tabs.now) }
{
    position::or_last(find_from(tabs, window.selected), tabs.len())
}

// The position of the first tab from the index on.
fn find_from(tabs: &[&Tab], index: i32) -> Option<usize>
    ensures { result ≡ position (λ t. int_le index t.now.index) tabs.now }
{
    tabs.iter().position(|tab| index <= tab.index)
}

fn push_selected(
    window: &Window,
    place: u32,
    out: &mut Vec<SessionCommand>,
) -> Result<(), AllocError>
    requires { place ≤ limit }
    ensures { OnOk result
        (out.new.items ≡ out.old.items ++ unless (int_eq window.now.selected (pos place))
        (SelectTab window.now.info.id (pos place))) }
{
    let index = place as i32;
    if window.selected == index {
        return Ok(());
    }
    out.push(SessionCommand::SelectTab {
        window: window.info.id,
        index,
    })?;
    Ok(())
}
