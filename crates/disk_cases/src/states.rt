//! States of a session as text: the windows by id, and each tab with its window.

use case_files::CaseFault;
use compactor::SessionMachine;
use file_rotation::{RotateFault, recover};
use session_disk::MemoryDisk;
use std::alloc::{AllocError, Global};
use window_state::{SessionState, Tab};

/// `windows 1 3; tabs 2 in 3, 4 alone`, with `none` where there are none of one sort, or `empty`.
pub fn described(alloc: Global, state: &SessionState) -> Result<String, AllocError> {
    if state.windows().len() == 0 && state.tabs().len() == 0 {
        return String::from_str(alloc, "empty");
    }
    let windows = windows(alloc, state)?;
    let tabs = tabs(alloc, state)?;
    format!(in alloc; "windows{}; tabs{}", windows.as_str(), tabs.as_str())
}

fn windows(alloc: Global, state: &SessionState) -> Result<String, AllocError> {
    let mut text = String::new(alloc);
    for window in state.windows().iter() {
        let id = format!(in alloc; " {}", window.info.id)?;
        text.push_str(id.as_str())?;
    }
    or_none(text)
}

fn tabs(alloc: Global, state: &SessionState) -> Result<String, AllocError> {
    let mut text = String::new(alloc);
    for tab in state.tabs().iter() {
        let comma = if text.is_empty() { "" } else { "," };
        text.push_str(comma)?;
        text.push_str(tab_text(alloc, tab)?.as_str())?;
    }
    or_none(text)
}

fn or_none(mut text: String) -> Result<String, AllocError> {
    if text.is_empty() {
        text.push_str(" none")?;
    }
    Ok(text)
}

fn tab_text(alloc: Global, tab: &Tab) -> Result<String, AllocError> {
    match tab.window {
        Some(window) => format!(in alloc; " {} in {window}", tab.info.id),
        None => format!(in alloc; " {} alone", tab.info.id),
    }
}

/// The state to which the files of a disk read.
pub fn state_of(alloc: Global, disk: &mut MemoryDisk) -> Result<SessionState, CaseFault> {
    match recover::<SessionMachine, MemoryDisk>(alloc, disk) {
        Ok(found) => Ok(found.state),
        Err(RotateFault::Memory) => Err(CaseFault::Memory),
        Err(RotateFault::Disk) => Err(CaseFault::Malformed("the disk fails")),
    }
}

/// The text of that state.
pub fn state_text(alloc: Global, disk: &mut MemoryDisk) -> Result<String, CaseFault> {
    let state = state_of(alloc, disk)?;
    Ok(described(alloc, &state)?)
}

/// Whether a text is that of a prefix of at least and at most so many commands. The texts are those after each command.
pub fn is_among(prefixes: &[String], least: u64, most: u64, text: &str) -> bool {
    for (count, prefix) in prefixes.iter().enumerate() {
        let count = count as u64;
        if least <= count && count <= most && prefix.as_str() == text {
            return true;
        }
    }
    false
}
