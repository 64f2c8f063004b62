//! The report as one value of JSON. A page's value is made for it alone; what stands around pages is put by hand.
ghost use Rattle.report_lines.specs.Reports.{Adds, ReportHasCause};
ghost use Rattle.view_reports.specs.PageValue.{page_value};
ghost use Rattle.view_reports.specs.RecoveredValue.{closed_tab_value, closed_window_value, entry_value, json_line};
ghost use Rattle.view_reports.specs.RecoveredValue.{tab_value, window_value};

use crate::arrays::{Json, put_array, put_closed_pages};
use crate::object_texts::{
    append_closed_tab_start, append_closed_window_start, append_tab_end, append_tab_start,
    append_view_start, append_window_start,
};
use crate::page::append_page;
use closed_entries::{ClosedTab, ClosedWindow, Entry};
use navigation_entry::Navigation;
use report_lines::{ReportFault, send_piece};
use session_disk::Sink;
use std::alloc::Global;
use window_state::{View, ViewTab, ViewWindow};

/// Adds what a view and its closed entries are as one line of JSON: an object of `active`, `closed` (the entries as they
/// are given) and `windows`, whose keys stand in the order of their bytes at each level.
///
/// The text is made in `waiting`, behind what waits there already, and goes out in whole pieces; what is left waits for
/// the caller. It takes no other memory than that of one page's value. The report stops where the sink fails, or for want
/// of memory, and a prefix of it was written then.
pub fn put_json<K: Sink>(
    alloc: Global,
    view: &View,
    entries: &[Entry],
    out: &mut K,
    waiting: &mut Vec<u8>,
) -> Result<(), ReportFault>
    ensures report { Adds (K.written out.old) (K.written out.new) waiting.old.items waiting.new.items
        (json_line view.now entries.now) result }
    ensures cause { ReportHasCause (K.faults out.old) (K.faults out.new) result }
{
    append_view_start(view.active, waiting)?;
    put_array(alloc, entries, out, waiting)?;
    waiting.extend_from_slice(b",\"windows\":")?;
    put_array(alloc, view.windows.as_slice(), out, waiting)?;
    waiting.extend_from_slice(b"}\n")?;
    Ok(())
}

impl Json for Navigation {
    ghost value = { page_value };

    fn put<K: Sink>(
        &self,
        alloc: Global,
        out: &mut K,
        waiting: &mut Vec<u8>,
    ) -> Result<(), ReportFault> {
        append_page(alloc, self, waiting)?;
        send_piece(out, waiting)?;
        Ok(())
    }
}

impl Json for ViewTab {
    ghost value = { tab_value };

    fn put<K: Sink>(
        &self,
        alloc: Global,
        out: &mut K,
        waiting: &mut Vec<u8>,
    ) -> Result<(), ReportFault> {
        append_tab_start(self.current, self.info.id, waiting)?;
        put_array(alloc, self.pages.as_slice(), out, waiting)?;
        append_tab_end(self.info.pinned, waiting)?;
        Ok(())
    }
}

impl Json for ViewWindow {
    ghost value = { window_value };

    fn put<K: Sink>(
        &self,
        alloc: Global,
        out: &mut K,
        waiting: &mut Vec<u8>,
    ) -> Result<(), ReportFault> {
        append_window_start(self.info.id, self.selected, waiting)?;
        put_array(alloc, self.tabs.as_slice(), out, waiting)?;
        waiting.extend_from_slice(b"}")?;
        Ok(())
    }
}

impl Json for ClosedTab {
    ghost value = { closed_tab_value };

    fn put<K: Sink>(
        &self,
        alloc: Global,
        out: &mut K,
        waiting: &mut Vec<u8>,
    ) -> Result<(), ReportFault> {
        append_closed_tab_start(self.id, waiting)?;
        put_closed_pages(alloc, &self.pages, out, waiting)?;
        waiting.extend_from_slice(b"}")?;
        Ok(())
    }
}

impl Json for ClosedWindow {
    ghost value = { closed_window_value };

    fn put<K: Sink>(
        &self,
        alloc: Global,
        out: &mut K,
        waiting: &mut Vec<u8>,
    ) -> Result<(), ReportFault> {
        append_closed_window_start(self.id, waiting)?;
        put_array(alloc, self.tabs.as_slice(), out, waiting)?;
        waiting.extend_from_slice(b"}")?;
        Ok(())
    }
}

impl Json for Entry {
    ghost value = { entry_value };

    fn put<K: Sink>(
        &self,
        alloc: Global,
        out: &mut K,
        waiting: &mut Vec<u8>,
    ) -> Result<(), ReportFault> {
        match self {
            Entry::Tab(tab) => tab.put(alloc, out, waiting),
            Entry::Window(window) => window.put(alloc, out, waiting),
        }
    }
}
