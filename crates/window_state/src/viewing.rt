//! The view of a state: the windows that have shown tabs, the groups of these, and the active window. Stands on the
//! shown tabs in the order of their places.
ghost use Rattle.std.specs.Prelude.{◌≡◌, ◌≤◌, ◌++◌, [], int_le, length, map, filter, position, IfOk, OnOk};
ghost use Rattle.std.specs.List.{AllByRecursion, list_any};
ghost use Rattle.std.specs.Ordering.{int_eq};
ghost use Rattle.std.specs.BTreeSet.{contains};
ghost use Rattle.std.specs.Map.{keys_of};
ghost use Rattle.std.specs.Map.Iter.{deref};
ghost use Rattle.window_state.specs.Limits.{limit};
ghost use Rattle.window_state.specs.Keys.{group_key, group_cmp};
ghost use Rattle.tab_pages.specs.Positions.{first_from};
ghost use Rattle.window_state.specs.Views.{view, view_windows, with_shown, view_window, view_tab, active_shown, least_shown};
ghost use Rattle.window_state.specs.Shown.{tabs_in, FitsPlace};

use crate::rows::{Row, Rows};
use crate::shown::Shown;
use crate::state::SessionState;
use crate::tab::Tab;
use crate::view_parts::{View, ViewTab, ViewWindow};
use crate::window::Window;
use item_list::Items;
use navigation_entry::GroupInfo;
use std::alloc::{AllocError, Global};
use tab_pages::position;

/// What a user sees of a state, in memory of its own. It makes O((t + w + g) log t) comparisons for t tabs, w windows
/// and g groups, and copies once each page, text and value that is shown.
pub fn view(alloc: Global, state: &SessionState) -> Result<View, AllocError>
    ensures { IfOk result (λ v. v ≡ view state.now) }
{
    state.known();
    let shown = Shown::of(alloc, state.tabs())?;
    let windows = shown_windows(alloc, state.windows(), &shown)?;
    let groups = used_groups(alloc, state.groups(), &shown)?;
    let active = active_shown(state.active(), windows.as_slice());
    Ok(View {
        windows: Items::from_vec(windows),
        groups: Items::from_vec(groups),
        active,
    })
}

fn shown_windows(
    alloc: Global,
    windows: &Rows<Window>,
    shown: &Shown<'_>,
) -> Result<Vec<ViewWindow>, AllocError>
    requires fits { AllByRecursion FitsPlace (keys_of shown.now.tabs.entries) }
    requires few { length shown.now.tabs.entries ≤ limit }
    ensures { IfOk result (λ v. v.items ≡ view_windows (λ id. tabs_in id shown.now) windows.now) }
{
    let mut views = Vec::new(alloc);
    for window in windows.iter() {
        let tabs = shown.in_window(alloc, window.info.id)?;
        push_shown(alloc, &mut views, window, tabs.as_slice())?;
    }
    Ok(views)
}

// The window is shown where it has tabs.
fn push_shown(
    alloc: Global,
    views: &mut Vec<ViewWindow>,
    window: &Window,
    tabs: &[&Tab],
) -> Result<(), AllocError>
    requires { length tabs.now ≤ limit }
    ensures { OnOk result (views.new.items ≡ views.old.items ++ with_shown window.now (map deref tabs.now) []) }
{
    if tabs.is_empty() {
        return Ok(());
    }
    views.push(shown_window(alloc, window, tabs)?)?;
    Ok(())
}

fn shown_window(alloc: Global, window: &Window, tabs: &[&Tab]) -> Result<ViewWindow, AllocError>
    requires { length tabs.now ≤ limit }
    ensures { IfOk result (λ w. w ≡ view_window window.now (map deref tabs.now)) }
{
    let info = window.info.copy()?;
    let shown = shown_tabs(alloc, tabs)?;
    Ok(ViewWindow {
        info,
        selected: first_from(tabs, window.selected),
        tabs: Items::from_vec(shown),
    })
}

// The position of the first tab from the index on, else the last one.
fn first_from(tabs: &[&Tab], index: i32) -> u32
    requires { length tabs.now ≤ limit }
    ensures { result ≡ first_from index (map (λ t. t.now.index) tabs.now) }
{
    position::or_last(find_from(tabs, index), tabs.len())
}

// The position of the first tab from the index on.
fn find_from(tabs: &[&Tab], index: i32) -> Option<usize>
    ensures { result ≡ position (λ t. int_le index t.now.index) tabs.now }
{
    tabs.iter().position(|tab| index <= tab.index)
}

fn shown_tabs(alloc: Global, tabs: &[&Tab]) -> Result<Vec<ViewTab>, AllocError>
    ensures { IfOk result (λ v. v.items ≡ map (λ t. view_tab t.now) tabs.now) }
{
    let mut shown = Vec::with_capacity(alloc, tabs.len())?;
    for tab in tabs {
        shown.push(shown_tab(tab)?)?;
    }
    Ok(shown)
}

fn shown_tab(tab: &Tab) -> Result<ViewTab, AllocError>
    ensures { IfOk result (λ t. t ≡ view_tab tab.now) }
{
    let info = tab.info.copy()?;
    let pages = tab.pages.navigations()?;
    Ok(ViewTab {
        info,
        pages: Items::from_vec(pages),
        current: tab.pages.first_from(tab.current),
    })
}

fn used_groups(
    alloc: Global,
    groups: &Rows<GroupInfo>,
    shown: &Shown<'_>,
) -> Result<Vec<GroupInfo>, AllocError>
    ensures { IfOk result
        (λ v. v.items ≡ filter (λ group. contains group_cmp shown.now.groups (group_key group)) groups.now) }
{
    let mut used = Vec::new(alloc);
    for group in groups.iter() {
        if shown.uses(group.key()) {
            used.push(GroupInfo::copy(group)?)?;
        }
    }
    Ok(used)
}

fn active_shown(active: Option<i32>, windows: &[ViewWindow]) -> Option<i32>
    ensures { result ≡ active_shown active windows.now }
{
    match active {
        Some(id) => {
            if has_window(windows, id) {
                return Some(id);
            }
            least_shown(windows)
        }
        None => least_shown(windows),
    }
}

fn has_window(windows: &[ViewWindow], id: i32) -> bool
    ensures { result ≡ list_any (λ w. int_eq w.info.id id) windows.now }
{
    windows.iter().any(|window| window.info.id == id)
}

fn least_shown(windows: &[ViewWindow]) -> Option<i32>
    ensures { result ≡ least_shown windows.now }
{
    windows.first().map(|window| window.info.id)
}
