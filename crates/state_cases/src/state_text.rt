//! States as text: the active window, and a line for each window, tab, page and group. What isn't set isn't told.
use crate::case_fault::CaseFault;
use crate::extra_cases::put_extra;
use crate::replay::replayed;
use crate::text::{put_blob, put_bytes, put_count, put_int, put_text, put_units};
use crate::words::Words;
use compactor::SessionMachine;
use navigation_entry::{Bounds, GroupInfo, Navigation};
use std::alloc::{AllocError, Global};
use tab_pages::Pages;
use window_state::{GroupId, Row, Rows, SessionState, Tab, TabInfo, Window, WindowInfo};

/// How many windows, tabs and groups the state after the commands has.
pub(crate) fn counts(alloc: Global, lines: &[Words<'_>]) -> Result<String, CaseFault> {
    let state = replayed::<SessionMachine>(alloc, lines)?;
    Ok(counts_text(alloc, &state)?)
}

fn counts_text(alloc: Global, state: &SessionState) -> Result<String, AllocError> {
    let mut out = String::new(alloc);
    put_len(&mut out, "windows ", state.windows())?;
    put_len(&mut out, " tabs ", state.tabs())?;
    put_len(&mut out, " groups ", state.groups())?;
    Ok(out)
}

fn put_len<R: Row>(out: &mut String, words: &str, rows: &Rows<R>) -> Result<(), AllocError> {
    put_count(out, words, rows.len() as u64)
}

pub(crate) fn state_text(alloc: Global, state: &SessionState) -> Result<String, AllocError> {
    let mut out = String::new(alloc);
    put_active(&mut out, state.active())?;
    put_windows(&mut out, state.windows())?;
    put_tabs(&mut out, state.tabs())?;
    for group in state.groups().iter() {
        put_group(&mut out, group)?;
    }
    Ok(out)
}

fn put_windows(out: &mut String, windows: &Rows<Window>) -> Result<(), AllocError> {
    for window in windows.iter() {
        put_window(out, window)?;
    }
    Ok(())
}

fn put_tabs(out: &mut String, tabs: &Rows<Tab>) -> Result<(), AllocError> {
    for tab in tabs.iter() {
        put_tab(out, tab)?;
    }
    Ok(())
}

pub(crate) fn put_active(out: &mut String, active: Option<i32>) -> Result<(), AllocError> {
    match active {
        Some(window) => put_int(out, "active ", i64::from(window))?,
        None => out.push_str("active none")?,
    }
    out.push_str("\n")
}

fn put_window(out: &mut String, window: &Window) -> Result<(), AllocError> {
    put_int(out, "window ", i64::from(window.info.id))?;
    put_int(out, " selected ", i64::from(window.selected))?;
    put_window_info(out, &window.info)?;
    out.push_str("\n")
}

pub(crate) fn put_window_info(out: &mut String, info: &WindowInfo) -> Result<(), AllocError> {
    if info.kind != 0 {
        put_int(out, " kind ", i64::from(info.kind))?;
    }
    if let Some(bounds) = &info.bounds {
        put_bounds(out, bounds)?;
    }
    put_blob(out, " app ", &info.app)?;
    put_blob(out, " workspace ", &info.workspace)?;
    if info.all_workspaces {
        out.push_str(" all-workspaces")?;
    }
    put_blob(out, " title ", &info.title)?;
    put_extra(out, " extra ", &info.extra)
}

pub(crate) fn put_bounds(out: &mut String, bounds: &Bounds) -> Result<(), AllocError> {
    put_int(out, " bounds ", i64::from(bounds.x))?;
    put_int(out, " ", i64::from(bounds.y))?;
    put_int(out, " ", i64::from(bounds.width))?;
    put_int(out, " ", i64::from(bounds.height))?;
    put_int(out, " ", i64::from(bounds.show))
}

fn put_tab(out: &mut String, tab: &Tab) -> Result<(), AllocError> {
    put_int(out, "tab ", i64::from(tab.info.id))?;
    match tab.window {
        Some(window) => put_int(out, " window ", i64::from(window))?,
        None => out.push_str(" window none")?,
    }
    put_int(out, " index ", i64::from(tab.index))?;
    put_int(out, " current ", i64::from(tab.current))?;
    put_tab_info(out, &tab.info)?;
    out.push_str("\n")?;
    put_pages(out, &tab.pages)
}

pub(crate) fn put_tab_info(out: &mut String, info: &TabInfo) -> Result<(), AllocError> {
    if info.pinned {
        out.push_str(" pinned")?;
    }
    put_blob(out, " extension ", &info.extension)?;
    put_blob(out, " storage ", &info.storage)?;
    put_blob(out, " guid ", &info.guid)?;
    put_blob(out, " agent ", &info.agent)?;
    put_group_id(out, &info.group)?;
    if info.last_active != 0 {
        put_int(out, " last-active ", info.last_active)?;
    }
    put_extra(out, " extra ", &info.extra)
}

fn put_group_id(out: &mut String, group: &Option<GroupId>) -> Result<(), AllocError> {
    match group {
        Some(group) => {
            put_count(out, " group ", group.high)?;
            put_count(out, " ", group.low)
        }
        None => Ok(()),
    }
}

pub(crate) fn put_pages(out: &mut String, pages: &Pages) -> Result<(), AllocError> {
    for place in 0..pages.len() {
        let (index, navigation) = pages.at(place);
        put_int(out, "page ", i64::from(index))?;
        put_navigation(out, navigation)?;
    }
    Ok(())
}

/// URL, title, page state, transition and rest.
pub(crate) fn put_navigation(out: &mut String, page: &Navigation) -> Result<(), AllocError> {
    put_text(out, " ", page.url.as_slice())?;
    put_units(out, " ", page.title.units())?;
    put_text(out, " ", page.page_state.as_slice())?;
    put_int(out, " ", i64::from(page.transition))?;
    put_bytes(out, " ", page.rest.as_slice())?;
    out.push_str("\n")
}

/// The two numbers of the group, its title, its colour and its rest.
pub(crate) fn put_group(out: &mut String, group: &GroupInfo) -> Result<(), AllocError> {
    put_count(out, "group ", group.high)?;
    put_count(out, " ", group.low)?;
    put_units(out, " ", group.title.units())?;
    put_count(out, " ", u64::from(group.colour))?;
    put_bytes(out, " ", group.rest.as_slice())?;
    out.push_str("\n")
}
