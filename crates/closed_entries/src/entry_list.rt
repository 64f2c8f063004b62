//! Entries in a vector, the newest last.
ghost use Rattle.std.specs.Prelude.{◌≡◌, ◌<◌, ◌+◌, ◌≤◌, ℕ, true, false, length, slice_index_or, IfOk, IfSome, IfNone, OnOk, OnErr};
ghost use Rattle.closed_entries.specs.declared.entry.Entry.{Entry};
ghost use Rattle.closed_entries.specs.LastItem.{on_last};
ghost use Rattle.closed_entries.specs.Changes.{with_more, with_window};
ghost use Rattle.closed_entries.specs.Step.{has_id, with_entry, without_newest};

use crate::closed_tab::ClosedTab;
use crate::entry::Entry;
use crate::limits::ENTRIES;
use std::alloc::{AllocError, Global};

/// A new entry goes last; where it is one too many, the oldest goes.
pub(crate) fn push(entries: &mut Vec<Entry>, entry: Entry) -> Result<(), AllocError>
    ensures ok { OnOk result (entries.new.items ≡ with_entry entry entries.old.items) }
    ensures err { OnErr result (entries.new.items ≡ entries.old.items) }
{
    entries.push(entry)?;
    if entries.len() > ENTRIES {
        entries.remove(0);
    }
    Ok(())
}

/// The newest entry with the id goes.
pub(crate) fn remove(entries: &mut Vec<Entry>, id: i32)
    ensures { entries.new.items ≡ without_newest id entries.old.items }
{
    if let Some(place) = newest_with(entries.as_slice(), id) {
        entries.remove(place);
    }
}

// The place of the newest entry with the id.
fn newest_with(entries: &[Entry], id: i32) -> Option<usize>
    ensures within { IfSome result (λ place. place < length entries.now) }
    ensures here { IfSome result (λ place. (d : Entry) → has_id id (slice_index_or entries.now place d) ≡ true) }
    ensures later { IfSome result (λ place. (k : ℕ) (d : Entry) → place + 1 ≤ k → k < length entries.now →
        has_id id (slice_index_or entries.now k d) ≡ false) }
    ensures none { IfNone result ((k : ℕ) (d : Entry) → k < length entries.now →
        has_id id (slice_index_or entries.now k d) ≡ false) }
{
    entries.iter().rposition(|entry| entry.id() == id)
}

/// A tab goes to the end of the newest window's tabs.
pub(crate) fn join(entries: &mut Vec<Entry>, tab: ClosedTab) -> Result<(), AllocError>
    ensures ok { OnOk result (entries.new.items ≡ on_last (with_window (with_more tab)) entries.old.items) }
    ensures err { OnErr result (entries.new.items ≡ entries.old.items) }
{
    match entries.last_mut() {
        Some(entry) => push_tab(entry, tab),
        None => Ok(()),
    }
}

fn push_tab(entry: &mut Entry, tab: ClosedTab) -> Result<(), AllocError>
    ensures ok { OnOk result (entry.new ≡ with_window (with_more tab) entry.old) }
    ensures err { OnErr result (entry.new ≡ entry.old) }
{
    match entry {
        Entry::Tab(_) => Ok(()),
        Entry::Window(window) => window.tabs.push(tab),
    }
}

/// The same entries, in memory of their own.
pub(crate) fn copied(alloc: Global, entries: &[Entry]) -> Result<Vec<Entry>, AllocError>
    ensures { IfOk result (λ v. v.items ≡ entries.now) }
{
    let mut copied = Vec::with_capacity(alloc, entries.len())?;
    for entry in entries {
        copied.push(entry.copy()?)?;
    }
    Ok(copied)
}
