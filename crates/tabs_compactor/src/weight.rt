//! The most commands that restate closed entries.
ghost use Rattle.std.specs.Prelude.{◌≡◌, ◌+◌, min, length, sum_by};
ghost use Rattle.tabs_compactor.specs.Compaction.{entry_weight, tab_weight, weight, window_weight};

use closed_entries::{ClosedState, ClosedTab, ClosedWindow, Entry};

/// It stops at the greatest number of its type.
pub(crate) fn of(state: &ClosedState) -> usize
    ensures { result ≡ min (weight state.now) usize.MAX }
{
    of_entries(state.entries()).saturating_add(1)
}

fn of_entries(entries: &[Entry]) -> usize
    ensures { result ≡ min (sum_by entry_weight entries.now) usize.MAX }
{
    let mut weight: usize = 0;
    for entry in entries {
        weight = weight.saturating_add(of_entry(entry));
    }
    weight
}

pub(crate) fn of_entry(entry: &Entry) -> usize
    ensures { result ≡ min (entry_weight entry.now) usize.MAX }
{
    match entry {
        Entry::Tab(tab) => of_tab(tab),
        Entry::Window(window) => of_window(window),
    }
}

fn of_window(window: &ClosedWindow) -> usize
    ensures { result ≡ min (window_weight window.now) usize.MAX }
{
    of_tabs(window.tabs.as_slice()).saturating_add(3)
}

fn of_tabs(tabs: &[ClosedTab]) -> usize
    ensures { result ≡ min (sum_by tab_weight tabs.now) usize.MAX }
{
    let mut weight: usize = 0;
    for tab in tabs {
        weight = weight.saturating_add(of_tab(tab));
    }
    weight
}

fn of_tab(tab: &ClosedTab) -> usize
    ensures { result ≡ min (tab_weight tab.now) usize.MAX }
{
    tab.pages.len().saturating_add(5)
}
