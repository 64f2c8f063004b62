//! Closed entries as text: a line for each tab, window, page and group, the oldest entry first. What isn't set isn't
//! told. A tab of a window stands behind two spaces.
use crate::case_fault::CaseFault;
use crate::replay::replayed;
use crate::state_text::{put_bounds, put_group, put_pages};
use crate::text::{put_blob, put_count, put_int};
use crate::words::Words;
use closed_entries::{ClosedState, ClosedTab, ClosedWindow, Entry, shown};
use std::alloc::{AllocError, Global};
use tabs_compactor::TabsMachine;

/// The entries, whether the newest is open, and how many tabs it awaits.
pub(crate) fn closed_text(alloc: Global, state: &ClosedState) -> Result<String, AllocError> {
    let mut out = String::new(alloc);
    for entry in state.entries() {
        put_entry(&mut out, entry)?;
    }
    if state.open_entry() {
        out.push_str("open\n")?;
    }
    if state.awaited() > 0 {
        put_count(&mut out, "awaited ", u64::from(state.awaited()))?;
    }
    Ok(out)
}

/// What a user sees of the state after the commands in the lines: the entries, the newest first.
pub(crate) fn shown_entries(alloc: Global, lines: &[Words<'_>]) -> Result<String, CaseFault> {
    let state = replayed::<TabsMachine>(alloc, lines)?;
    Ok(shown_text(alloc, &state)?)
}

fn shown_text(alloc: Global, state: &ClosedState) -> Result<String, AllocError> {
    let mut out = String::new(alloc);
    for entry in &shown(alloc, state)? {
        put_entry(&mut out, entry)?;
    }
    Ok(out)
}

fn put_entry(out: &mut String, entry: &Entry) -> Result<(), AllocError> {
    match entry {
        Entry::Tab(tab) => put_tab(out, "tab ", tab),
        Entry::Window(window) => put_window(out, window),
    }
}

fn put_window(out: &mut String, window: &ClosedWindow) -> Result<(), AllocError> {
    put_int(out, "window ", i64::from(window.id))?;
    put_int(out, " selected ", i64::from(window.selected))?;
    put_int(out, " time ", window.time)?;
    put_bounds(out, &window.bounds)?;
    put_blob(out, " app ", &window.app)?;
    put_blob(out, " title ", &window.title)?;
    out.push_str("\n")?;
    for tab in window.tabs.as_slice() {
        put_tab(out, "  tab ", tab)?;
    }
    Ok(())
}

fn put_tab(out: &mut String, words: &str, tab: &ClosedTab) -> Result<(), AllocError> {
    put_int(out, words, i64::from(tab.id))?;
    put_int(out, " selected ", i64::from(tab.selected))?;
    put_int(out, " time ", tab.time)?;
    if tab.pinned {
        out.push_str(" pinned")?;
    }
    put_blob(out, " extension ", &tab.extension)?;
    put_blob(out, " agent ", &tab.agent)?;
    out.push_str("\n")?;
    if let Some(group) = &tab.group {
        put_group(out, group)?;
    }
    put_pages(out, &tab.pages)
}
