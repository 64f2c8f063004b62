//! Lines, one by one, which are made whole or refused for want of memory.
ghost use Rattle.std.specs.Prelude.{◌≡◌, ◌++◌, codes, decimal, slice_get, OnOk};
ghost use Rattle.std.specs.Fmt.{signed_decimal};
ghost use Rattle.shown_texts.specs.Shown.{shown_bytes};
ghost use Rattle.view_reports.specs.RecoveredLines.{url_of, tab_line, window_line, active_line, entry_line};

use crate::numbers::{append_id, append_number};
use closed_entries::Entry;
use shown_texts::show_bytes;
use std::alloc::AllocError;
use window_state::{ViewTab, ViewWindow};

/// Appends the line of a window, without those of its tabs.
pub(crate) fn append_window(window: &ViewWindow, waiting: &mut Vec<u8>) -> Result<(), AllocError>
    ensures { OnOk result (waiting.new.items ≡ waiting.old.items ++ window_line window.now) }
{
    append_numbers(
        b"window ",
        window.info.id,
        b" selected ",
        window.selected as usize,
        waiting,
    )?;
    Ok(())
}

/// Appends the line of a tab.
pub(crate) fn append_tab(tab: &ViewTab, waiting: &mut Vec<u8>) -> Result<(), AllocError>
    ensures { OnOk result (waiting.new.items ≡ waiting.old.items ++ tab_line tab.now) }
{
    append_id(b"tab ", tab.info.id, waiting)?;
    append_number(b" page ", tab.current as usize, waiting)?;
    append_number(b" of ", tab.pages.len(), waiting)?;
    append_quoted_url(tab, waiting)?;
    Ok(())
}

fn append_quoted_url(tab: &ViewTab, waiting: &mut Vec<u8>) -> Result<(), AllocError>
    ensures { OnOk result (waiting.new.items ≡ waiting.old.items
        ++ (codes " \"" ++ (shown_bytes (url_of (slice_get tab.now.pages tab.now.current)) ++ codes "\"\n"))) }
{
    waiting.extend_from_slice(b" \"")?;
    append_url(tab, waiting)?;
    waiting.extend_from_slice(b"\"\n")?;
    Ok(())
}

// The URL of the page that the tab shows.
fn append_url(tab: &ViewTab, waiting: &mut Vec<u8>) -> Result<(), AllocError>
    ensures { OnOk result (waiting.new.items ≡ waiting.old.items
        ++ shown_bytes (url_of (slice_get tab.now.pages tab.now.current))) }
{
    match tab.pages.as_slice().get(tab.current as usize) {
        Some(page) => {
            show_bytes(page.url.as_slice(), waiting)?;
            Ok(())
        }
        None => Ok(()),
    }
}

/// Appends the line that names the active window.
pub(crate) fn append_active(active: Option<i32>, waiting: &mut Vec<u8>) -> Result<(), AllocError>
    ensures { OnOk result (waiting.new.items ≡ waiting.old.items ++ active_line active) }
{
    match active {
        Some(window) => {
            append_id(b"active ", window, waiting)?;
            waiting.extend_from_slice(b"\n")?;
            Ok(())
        }
        None => {
            waiting.extend_from_slice(b"active none\n")?;
            Ok(())
        }
    }
}

/// Appends the line of a closed tab or window.
pub(crate) fn append_entry(entry: &Entry, waiting: &mut Vec<u8>) -> Result<(), AllocError>
    ensures { OnOk result (waiting.new.items ≡ waiting.old.items ++ entry_line entry.now) }
{
    match entry {
        Entry::Tab(tab) => append_numbers(
            b"closed-tab ",
            tab.id,
            b" pages ",
            tab.pages.len(),
            waiting,
        ),
        Entry::Window(window) => append_numbers(
            b"closed-window ",
            window.id,
            b" tabs ",
            window.tabs.len(),
            waiting,
        ),
    }
}

// A whole line of an id and a number.
fn append_numbers(
    before_id: &[u8],
    id: i32,
    before_number: &[u8],
    number: usize,
    waiting: &mut Vec<u8>,
) -> Result<(), AllocError>
    ensures { OnOk result (waiting.new.items ≡ waiting.old.items
        ++ (before_id.now ++ (signed_decimal id ++ (before_number.now ++ (decimal number ++ codes "\n"))))) }
{
    append_id(before_id, id, waiting)?;
    append_number(before_number, number, waiting)?;
    waiting.extend_from_slice(b"\n")?;
    Ok(())
}
