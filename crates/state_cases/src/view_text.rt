//! Views as text: the active window, a line for each shown window, each of its tabs, their pages, and the groups.
use crate::case_fault::CaseFault;
use crate::replay::replayed;
use crate::state_text::{put_active, put_group, put_navigation, put_tab_info, put_window_info};
use crate::text::{put_count, put_int};
use crate::words::Words;
use compactor::SessionMachine;
use std::alloc::{AllocError, Global};
use window_state::{SessionState, View, ViewTab, ViewWindow, view};

/// What is shown of the state after the commands in the lines.
pub(crate) fn views(alloc: Global, lines: &[Words<'_>]) -> Result<String, CaseFault> {
    let state = replayed::<SessionMachine>(alloc, lines)?;
    let view = copied(alloc, &state)?;
    Ok(view_text(alloc, &view)?)
}

fn copied(alloc: Global, state: &SessionState) -> Result<View, AllocError> {
    view(alloc, state)?.copy()
}

fn view_text(alloc: Global, view: &View) -> Result<String, AllocError> {
    let mut out = String::new(alloc);
    put_active(&mut out, view.active)?;
    for window in view.windows.as_slice() {
        put_window(&mut out, window)?;
    }
    for group in view.groups.as_slice() {
        put_group(&mut out, group)?;
    }
    Ok(out)
}

fn put_window(out: &mut String, window: &ViewWindow) -> Result<(), AllocError> {
    put_int(out, "window ", i64::from(window.info.id))?;
    put_count(out, " selected ", u64::from(window.selected))?;
    put_window_info(out, &window.info)?;
    out.push_str("\n")?;
    for tab in window.tabs.as_slice() {
        put_tab(out, tab)?;
    }
    Ok(())
}

fn put_tab(out: &mut String, tab: &ViewTab) -> Result<(), AllocError> {
    put_int(out, "tab ", i64::from(tab.info.id))?;
    put_count(out, " current ", u64::from(tab.current))?;
    put_tab_info(out, &tab.info)?;
    out.push_str("\n")?;
    for page in tab.pages.as_slice() {
        out.push_str("page")?;
        put_navigation(out, page)?;
    }
    Ok(())
}
