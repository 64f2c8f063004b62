//! How objects of JSON begin and end, around the list that each of them holds.
ghost use Rattle.std.specs.Prelude.{◌≡◌, ◌++◌, OnOk};
ghost use Rattle.view_reports.specs.ObjectTexts.{closed_tab_start, closed_window_start, tab_start, tab_end};
ghost use Rattle.view_reports.specs.ObjectTexts.{view_start, window_start};

use crate::numbers::{append_id, append_number};
use std::alloc::AllocError;

/// Appends what stands before a shown tab's pages.
pub(crate) fn append_tab_start(
    current: u32,
    id: i32,
    waiting: &mut Vec<u8>,
) -> Result<(), AllocError>
    ensures { OnOk result (waiting.new.items ≡ waiting.old.items ++ tab_start current id) }
{
    append_number(b"{\"current\":", current as usize, waiting)?;
    append_id(b",\"id\":", id, waiting)?;
    waiting.extend_from_slice(b",\"pages\":")?;
    Ok(())
}

/// Appends what stands behind a shown tab's pages.
pub(crate) fn append_tab_end(pinned: bool, waiting: &mut Vec<u8>) -> Result<(), AllocError>
    ensures { OnOk result (waiting.new.items ≡ waiting.old.items ++ tab_end pinned) }
{
    if pinned {
        waiting.extend_from_slice(b",\"pinned\":true}")?;
        return Ok(());
    }
    waiting.extend_from_slice(b",\"pinned\":false}")?;
    Ok(())
}

/// Appends what stands before a shown window's tabs.
pub(crate) fn append_window_start(
    id: i32,
    selected: u32,
    waiting: &mut Vec<u8>,
) -> Result<(), AllocError>
    ensures { OnOk result (waiting.new.items ≡ waiting.old.items ++ window_start id selected) }
{
    append_id(b"{\"id\":", id, waiting)?;
    append_number(b",\"selected\":", selected as usize, waiting)?;
    waiting.extend_from_slice(b",\"tabs\":")?;
    Ok(())
}

/// Appends what stands before a closed tab's pages.
pub(crate) fn append_closed_tab_start(id: i32, waiting: &mut Vec<u8>) -> Result<(), AllocError>
    ensures { OnOk result (waiting.new.items ≡ waiting.old.items ++ closed_tab_start id) }
{
    append_id(b"{\"id\":", id, waiting)?;
    waiting.extend_from_slice(b",\"kind\":\"tab\",\"pages\":")?;
    Ok(())
}

/// Appends what stands before a closed window's tabs.
pub(crate) fn append_closed_window_start(id: i32, waiting: &mut Vec<u8>) -> Result<(), AllocError>
    ensures { OnOk result (waiting.new.items ≡ waiting.old.items ++ closed_window_start id) }
{
    append_id(b"{\"id\":", id, waiting)?;
    waiting.extend_from_slice(b",\"kind\":\"window\",\"tabs\":")?;
    Ok(())
}

/// Appends what stands before the closed entries.
pub(crate) fn append_view_start(
    active: Option<i32>,
    waiting: &mut Vec<u8>,
) -> Result<(), AllocError>
    ensures { OnOk result (waiting.new.items ≡ waiting.old.items ++ view_start active) }
{
    match active {
        Some(window) => {
            append_id(b"{\"active\":", window, waiting)?;
            waiting.extend_from_slice(b",\"closed\":")?;
            Ok(())
        }
        None => {
            waiting.extend_from_slice(b"{\"active\":null,\"closed\":")?;
            Ok(())
        }
    }
}
