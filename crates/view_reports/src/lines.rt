//! The report in lines: a line a window and a tab, one for the active window, one a closed entry.
ghost use Rattle.std.specs.Prelude.{ℕ, List};
ghost use Rattle.std.specs.List.{flat_map};
ghost use Rattle.report_lines.specs.Reports.{Adds, ReportHasCause};
ghost use Rattle.view_reports.specs.RecoveredLines.{tab_line, window_lines, entry_line, recovered_lines};

use crate::line_texts::{append_active, append_entry, append_tab, append_window};
use closed_entries::Entry;
use report_lines::{ReportFault, send_piece};
use session_disk::Sink;
use window_state::{View, ViewTab, ViewWindow};

/// Adds what a view and its closed entries are in lines: `window ID selected PLACE` for each window, behind it for each
/// of its tabs `tab ID page PLACE of COUNT "URL"` with the URL of the page that it shows, then `active ID` or
/// `active none`, then `closed-tab ID pages COUNT` or `closed-window ID tabs COUNT` for each entry as it is given.
///
/// The lines are made in `waiting`, behind what waits there already, and go out in whole pieces; what is left waits for
/// the caller. It takes no other memory. The report stops where the sink fails, or for want of memory, and a prefix of it
/// was written then.
pub fn put_lines<K: Sink>(
    view: &View,
    entries: &[Entry],
    out: &mut K,
    waiting: &mut Vec<u8>,
) -> Result<(), ReportFault>
    ensures report { Adds (K.written out.old) (K.written out.new) waiting.old.items waiting.new.items
        (recovered_lines view.now entries.now) result }
    ensures cause { ReportHasCause (K.faults out.old) (K.faults out.new) result }
{
    put_each(view.windows.as_slice(), out, waiting)?;
    append_active(view.active, waiting)?;
    put_each(entries, out, waiting)?;
    Ok(())
}

// What is said of a thing in lines, which are made one by one: behind each, whole pieces go out.
trait Lines {
    ghost lines: { Self → List ℕ };

    fn put<K: Sink>(&self, out: &mut K, waiting: &mut Vec<u8>) -> Result<(), ReportFault>
        ensures report { Adds (K.written out.old) (K.written out.new) waiting.old.items waiting.new.items
            (lines self.now) result }
        ensures cause { ReportHasCause (K.faults out.old) (K.faults out.new) result };
}

fn put_each<T: Lines, K: Sink>(
    items: &[T],
    out: &mut K,
    waiting: &mut Vec<u8>,
) -> Result<(), ReportFault>
    ensures report { Adds (K.written out.old) (K.written out.new) waiting.old.items waiting.new.items
        (flat_map T.lines items.now) result }
    ensures cause { ReportHasCause (K.faults out.old) (K.faults out.new) result }
{
    for item in items {
        item.put(out, waiting)?;
    }
    Ok(())
}

impl Lines for ViewWindow {
    ghost lines = { window_lines };

    #[tactic(auto, unfolding(crate::specs::RecoveredLines::window_lines))]
    fn put<K: Sink>(&self, out: &mut K, waiting: &mut Vec<u8>) -> Result<(), ReportFault> {
        append_window(self, waiting)?;
        put_each(self.tabs.as_slice(), out, waiting)?;
        Ok(())
    }
}

impl Lines for ViewTab {
    ghost lines = { tab_line };

    fn put<K: Sink>(&self, out: &mut K, waiting: &mut Vec<u8>) -> Result<(), ReportFault> {
        append_tab(self, waiting)?;
        send_piece(out, waiting)?;
        Ok(())
    }
}

impl Lines for Entry {
    ghost lines = { entry_line };

    fn put<K: Sink>(&self, out: &mut K, waiting: &mut Vec<u8>) -> Result<(), ReportFault> {
        append_entry(self, waiting)?;
        send_piece(out, waiting)?;
        Ok(())
    }
}
