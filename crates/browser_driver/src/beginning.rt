//! The browser that begins with what a user sees of a state.
//! Its state and its orders hold copies of what is shown, each page at its place.
ghost use Rattle.std.specs.Prelude.{◌≡◌, zero, ◌<◌, ◌≤◌, ◌^◌, [], length, map, IfOk, OnOk};
ghost use Rattle.std.specs.List.{AllByRecursion};
ghost use Rattle.std.specs.List.Sorted.{IsStrictlySortedBy};
ghost use Rattle.std.specs.Ordering.{int_cmp};
ghost use Rattle.window_state.specs.Keys.{window_key, group_key, group_cmp};
ghost use Rattle.window_state.specs.Limits.{limit};
ghost use Rattle.browser_model.specs.Browsers.{numbered, open_key, own_id, row_of, rows, window_row};
ghost use Rattle.browser_model.specs.Beginnings.{begun_tab, begun_window};
ghost use Rattle.browser_driver.specs.Begun.{IsViewed, IsSmallTab, IsSmallWindow, begun_state};
ghost use Rattle.browser_driver.specs.Begun.{tab_rows, with_rows, with_tabs};
ghost use Rattle.browser_driver.specs.Held.{AreSeated};
ghost use Rattle.browser_driver.specs.Orders.{order_of, SetsOrder};

use crate::browser::Browser;
use crate::order::Orders;
use closed_entries::ClosedState;
use navigation_entry::{GroupInfo, Navigation};
use std::alloc::{AllocError, Global};
use tab_pages::Pages;
use window_state::{Rows, SessionState, Tab, View, ViewTab, ViewWindow, Window};

impl Browser {
    ghost use Rattle.browser_model.specs.Beginnings.{begun};

    /// The browser of a view and of what was closed, at the moment 0. Where the view has no active window, this is the
    /// active one. It copies once each page, text and entry, and takes time in them and, for each tab, in the logarithm
    /// of the number of tabs. An error is want of memory.
    pub fn from_states(
        alloc: Global,
        view: &View,
        active: Option<i32>,
        closed: &ClosedState,
    ) -> Result<Browser, AllocError>
        requires { IsViewed view.now }
        ensures { IfOk result (λ b. b ≡ begun view.now active closed.now.entries) }
    {
        let state = state_of(alloc, view, active)?;
        let orders = orders_of(alloc, view.windows.as_slice())?;
        let closed = closed.copy()?;
        Ok(Browser {
            state,
            orders,
            closed,
            moment: 0,
            alloc,
        })
    }
}

fn state_of(alloc: Global, view: &View, active: Option<i32>) -> Result<SessionState, AllocError>
    requires { IsViewed view.now }
    ensures { IfOk result (λ s. s ≡ begun_state view.now active) }
{
    let tabs = rows_of_tabs(alloc, view.windows.as_slice())?;
    let windows = rows_of_windows(alloc, view.windows.as_slice())?;
    let groups = rows_of_groups(alloc, view.groups.as_slice())?;
    SessionState::from_rows(alloc, tabs, windows, groups, view.active.or(active))
}

fn rows_of_tabs(alloc: Global, windows: &[ViewWindow]) -> Result<Rows<Tab>, AllocError>
    requires { AllByRecursion IsSmallWindow windows.now }
    ensures { IfOk result (λ tabs. tabs ≡ with_tabs [] (rows (map begun_window windows.now))) }
{
    let mut tabs = Rows::new(alloc);
    for window in windows {
        put_tabs(alloc, &mut tabs, window.info.id, window.tabs.as_slice())?;
    }
    Ok(tabs)
}

// The shown tabs of a window are put in, each at its place.
fn put_tabs(
    alloc: Global,
    tabs: &mut Rows<Tab>,
    window: i32,
    shown: &[ViewTab],
) -> Result<(), AllocError>
    requires count { length shown.now ≤ limit }
    requires small { AllByRecursion IsSmallTab shown.now }
    ensures { OnOk result (tabs.new ≡ with_tabs tabs.old (tab_rows window zero shown.now)) }
{
    for (place, tab) in shown.iter().enumerate() {
        tabs.put(tab_at(alloc, window, place, tab)?)?;
    }
    Ok(())
}

fn tab_at(alloc: Global, window: i32, place: usize, shown: &ViewTab) -> Result<Tab, AllocError>
    requires place { place < limit }
    requires small { IsSmallTab shown.now }
    ensures { IfOk result
        (λ t. t ≡ row_of (record { window = window; place = place; tab = begun_tab shown.now })) }
{
    let info = shown.info.copy()?;
    let pages = pages_of(alloc, shown.pages.as_slice())?;
    Ok(Tab {
        info,
        window: Some(window),
        index: place as i32,
        current: shown.current as i32,
        pages,
    })
}

// Pages from the index 0 on.
fn pages_of(alloc: Global, shown: &[Navigation]) -> Result<Pages, AllocError>
    requires { length shown.now ≤ 2 ^ 31 }
    ensures { IfOk result (λ pages. pages ≡ numbered zero shown.now) }
{
    let mut pages = Pages::new(alloc);
    for (index, navigation) in shown.iter().enumerate() {
        pages.put(index as i32, navigation.copy()?)?;
    }
    Ok(pages)
}

fn rows_of_windows(alloc: Global, shown: &[ViewWindow]) -> Result<Rows<Window>, AllocError>
    requires { AllByRecursion IsSmallWindow shown.now }
    ensures { IfOk result
        (λ windows. windows ≡ with_rows int_cmp window_key [] (map window_row (map begun_window shown.now))) }
{
    let mut windows = Rows::new(alloc);
    for window in shown {
        let info = window.info.copy()?;
        windows.put(Window {
            info,
            selected: window.selected as i32,
        })?;
    }
    Ok(windows)
}

fn rows_of_groups(alloc: Global, shown: &[GroupInfo]) -> Result<Rows<GroupInfo>, AllocError>
    ensures { IfOk result (λ groups. groups ≡ with_rows group_cmp group_key [] shown.now) }
{
    let mut groups = Rows::new(alloc);
    for group in shown {
        groups.put(GroupInfo::copy(group)?)?;
    }
    Ok(groups)
}

fn orders_of(alloc: Global, windows: &[ViewWindow]) -> Result<Orders, AllocError>
    requires { IsStrictlySortedBy int_cmp (map open_key (map begun_window windows.now)) }
    ensures { IfOk result (λ orders. AreSeated orders (map begun_window windows.now)) }
{
    let mut orders = Orders::new(alloc);
    for window in windows {
        seat_tabs(&mut orders, window.info.id, window.tabs.as_slice())?;
    }
    Ok(orders)
}

// The shown tabs of a window that has no order yet are its tabs.
fn seat_tabs(orders: &mut Orders, window: i32, shown: &[ViewTab]) -> Result<(), AllocError>
    requires { order_of window orders.old ≡ [] }
    ensures { OnOk result (SetsOrder window (map own_id (map begun_tab shown.now)) orders.old orders.new) }
{
    for (place, tab) in shown.iter().enumerate() {
        orders.insert(window, place, tab.info.id)?;
    }
    Ok(())
}
