//! Closed entries as text.

use case_files::CaseFault;
use closed_entries::{ClosedState, Entry};
use file_rotation::{RotateFault, recover};
use session_disk::MemoryDisk;
use std::alloc::{AllocError, Global};
use tabs_compactor::TabsMachine;

/// The closed entries to which the files of a disk read: `tab 2 of 3 pages, window 4 of 2 tabs`, the newest last,
/// behind them `; open` where it is open, and `, 1 awaited`; `empty` where there are none.
pub fn closed_text(alloc: Global, disk: &mut MemoryDisk) -> Result<String, CaseFault> {
    match recover::<TabsMachine, MemoryDisk>(alloc, disk) {
        Ok(found) => Ok(described(alloc, &found.state)?),
        Err(RotateFault::Memory) => Err(CaseFault::Memory),
        Err(RotateFault::Disk) => Err(CaseFault::Malformed("the disk fails")),
    }
}

fn described(alloc: Global, state: &ClosedState) -> Result<String, AllocError> {
    let mut text = String::new(alloc);
    for entry in state.entries() {
        let comma = if text.is_empty() { "" } else { ", " };
        text.push_str(comma)?;
        text.push_str(entry_text(alloc, entry)?.as_str())?;
    }
    if text.is_empty() {
        text.push_str("empty")?;
    }
    if state.open_entry() {
        text.push_str("; open")?;
    }
    if state.awaited() > 0 {
        let awaited = format!(in alloc; ", {} awaited", state.awaited())?;
        text.push_str(awaited.as_str())?;
    }
    Ok(text)
}

fn entry_text(alloc: Global, entry: &Entry) -> Result<String, AllocError> {
    match entry {
        Entry::Tab(tab) => format!(in alloc; "tab {} of {} pages", tab.id, tab.pages.len()),
        Entry::Window(window) => {
            let tabs = window.tabs.as_slice().len();
            format!(in alloc; "window {} of {tabs} tabs", window.id)
        }
    }
}
