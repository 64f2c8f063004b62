//! What stays of tabs and windows that are closed.
//! A tab without pages leaves nothing, and so does a window without tabs that have pages.
ghost use Rattle.std.specs.Prelude.{◌≡◌, ◌≤◌, ◌∷◌, [], ◌++◌, length, map, option_map, IfSome, IfOk, OnOk};
ghost use Rattle.std.specs.List.{AllByRecursion};
ghost use Rattle.std.specs.Option.{option_copied, unwrap_or};
ghost use Rattle.closed_entries.specs.States.{IsEntry};
ghost use Rattle.tab_pages.specs.Positions.{first_from};
ghost use Rattle.tab_pages.specs.Ranges.{IsGroupInRange};
ghost use Rattle.window_state.specs.Fits.{IsKeptTab};
ghost use Rattle.window_state.specs.Limits.{limit};
ghost use Rattle.window_state.specs.Ranges.{IsTabInRange};
ghost use Rattle.browser_model.specs.Entries.{known_group, no_bounds};
ghost use Rattle.browser_model.specs.Navigations.{bare_group};
ghost use Rattle.browser_driver.specs.SeatPlans.{closed_row, entry_of_row};
ghost use Rattle.browser_driver.specs.WindowEntries.{entry_in_order, seen_places, seen_rows, seen_tab};

use crate::page::no_title;
use closed_entries::{ClosedTab, ClosedWindow, Entry};
use item_list::Items;
use navigation_entry::{Bounds, GroupInfo};
use pickle_cells::Blob;
use std::alloc::{AllocError, Global};
use tab_pages::text;
use window_state::{GroupId, Rows, Tab, Window};

/// The entry of a tab that is closed at a moment.
pub(crate) fn tab_entry(
    alloc: Global,
    groups: &Rows<GroupInfo>,
    moment: i64,
    tab: &Tab,
) -> Result<Option<Entry>, AllocError>
    requires kept { IsKeptTab tab.now }
    requires ranged { IsTabInRange tab.now }
    requires groups { AllByRecursion IsGroupInRange groups.now }
    ensures is { IfOk result (λ entry. entry ≡ entry_of_row groups.now moment tab.now) }
    ensures fits { IfOk result (λ entry. IfSome entry IsEntry) }
{
    if tab.pages.is_empty() {
        return Ok(None);
    }
    let tab = closed_tab(alloc, groups, moment, tab)?;
    Ok(Some(Entry::Tab(tab)))
}

/// The entry of a window that is closed at a moment, with the tabs of this order.
pub(crate) fn window_entry(
    alloc: Global,
    tabs: &Rows<Tab>,
    groups: &Rows<GroupInfo>,
    moment: i64,
    window: &Window,
    order: &[i32],
) -> Result<Option<Entry>, AllocError>
    requires { length order.now ≤ limit }
    ensures { IfOk result (λ entry. entry ≡ entry_in_order tabs.now groups.now moment window.now order.now) }
{
    let selected = seen_position(tabs, order, window.selected);
    let seen = closed_tabs(alloc, tabs, groups, moment, order)?;
    if seen.is_empty() {
        return Ok(None);
    }
    let window = closed_window(moment, window, selected as i32, seen)?;
    Ok(Some(Entry::Window(window)))
}

fn closed_tab(
    alloc: Global,
    groups: &Rows<GroupInfo>,
    moment: i64,
    tab: &Tab,
) -> Result<ClosedTab, AllocError>
    ensures { IfOk result (λ t. t ≡ closed_row groups.now moment tab.now) }
{
    let extension = text::copy(&tab.info.extension)?;
    let agent = text::copy(&tab.info.agent)?;
    let group = known_group(alloc, groups, tab.info.group)?;
    let pages = tab.pages.copy()?;
    Ok(ClosedTab {
        id: tab.info.id,
        selected: tab.current,
        time: moment,
        pinned: tab.info.pinned,
        extension,
        agent,
        group,
        pages,
    })
}

// What is known of a tab's group, its token alone where nothing else is.
fn known_group(
    alloc: Global,
    groups: &Rows<GroupInfo>,
    id: Option<GroupId>,
) -> Result<Option<GroupInfo>, AllocError>
    ensures { IfOk result (λ g. g ≡ option_map (known_group groups.now) id) }
{
    let Some(id) = id else {
        return Ok(None);
    };
    let group = match groups.get(id) {
        Some(group) => group.copy()?,
        None => bare_group(alloc, id)?,
    };
    Ok(Some(group))
}

fn bare_group(alloc: Global, id: GroupId) -> Result<GroupInfo, AllocError>
    ensures { IfOk result (λ g. g ≡ bare_group id.high id.low) }
{
    let title = no_title(alloc)?;
    let rest = Blob::from_slice(alloc, &[])?;
    Ok(GroupInfo {
        high: id.high,
        low: id.low,
        title,
        colour: 0,
        rest,
    })
}

fn closed_window(
    moment: i64,
    window: &Window,
    selected: i32,
    tabs: Vec<ClosedTab>,
) -> Result<ClosedWindow, AllocError>
    ensures { IfOk result (λ w. w ≡ record {
      id = window.now.info.id;
      selected = selected;
      time = moment;
      bounds = unwrap_or window.now.info.bounds no_bounds;
      app = window.now.info.app;
      title = window.now.info.title;
      tabs = tabs.items;
    }) }
{
    let app = text::copy(&window.info.app)?;
    let title = text::copy(&window.info.title)?;
    Ok(ClosedWindow {
        id: window.info.id,
        selected,
        time: moment,
        bounds: window.info.bounds.unwrap_or(NO_BOUNDS),
        app,
        title,
        tabs: Items::from_vec(tabs),
    })
}

const NO_BOUNDS: Bounds = Bounds {
    x: 0,
    y: 0,
    width: 0,
    height: 0,
    show: 0,
};

// Those with pages, in the order.
fn closed_tabs(
    alloc: Global,
    tabs: &Rows<Tab>,
    groups: &Rows<GroupInfo>,
    moment: i64,
    order: &[i32],
) -> Result<Vec<ClosedTab>, AllocError>
    ensures { IfOk result (λ v. v.items ≡ map (closed_row groups.now moment) (seen_rows tabs.now order.now)) }
{
    let mut closed = Vec::new(alloc);
    for id in order {
        push_closed(alloc, tabs, groups, moment, *id, &mut closed)?;
    }
    Ok(closed)
}

fn push_closed(
    alloc: Global,
    tabs: &Rows<Tab>,
    groups: &Rows<GroupInfo>,
    moment: i64,
    id: i32,
    out: &mut Vec<ClosedTab>,
) -> Result<(), AllocError>
    ensures { OnOk result
        (out.new.items ≡ out.old.items ++ map (closed_row groups.now moment) (seen_rows tabs.now (id ∷ []))) }
{
    let Some(tab) = seen_tab(tabs, id) else {
        return Ok(());
    };
    out.push(closed_tab(alloc, groups, moment, tab)?)?;
    Ok(())
}

// The position, among the tabs with pages, of the first whose place is at least this, else the last position; 0 where
// there are none.
fn seen_position(tabs: &Rows<Tab>, order: &[i32], selected: i32) -> u32
    requires { length order.now ≤ limit }
    ensures is { result ≡ first_from selected (seen_places tabs.now 0 order.now) }
    ensures within { result ≤ length order.now }
{
    let mut before = 0;
    let mut place: u32 = 0;
    for id in order {
        if seen_tab(tabs, *id).is_some() {
            if place as i32 >= selected {
                return before;
            }
            before += 1;
        }
        place += 1;
    }
    before.saturating_sub(1)
}

// The tab, where it is there and has pages.
fn seen_tab(tabs: &Rows<Tab>, id: i32) -> Option<&Tab>
    ensures { option_copied result ≡ seen_tab tabs.now id }
{
    let Some(tab) = tabs.get(id) else {
        return None;
    };
    if tab.pages.is_empty() {
        return None;
    }
    Some(tab)
}
