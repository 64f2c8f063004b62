//! What was closed at once.
ghost use Rattle.std.specs.Prelude.{◌≡◌, IfOk};
ghost use Rattle.closed_entries.specs.Changes.{id_of};

use crate::closed_tab::ClosedTab;
use crate::closed_window::ClosedWindow;
use std::alloc::AllocError;

/// A tab that was closed alone, or a window that was closed with its tabs.
#[derive(Drop)]
pub enum Entry {
    Tab(ClosedTab),
    Window(ClosedWindow),
}

impl Entry {
    /// The id of the tab or of the window.
    pub fn id(&self) -> i32
        ensures { result ≡ id_of self.now }
    {
        match self {
            Entry::Tab(tab) => tab.id,
            Entry::Window(window) => window.id,
        }
    }

    /// The same entry, in memory of its own. It takes time and memory for all that the entry holds.
    pub fn copy(&self) -> Result<Entry, AllocError>
        ensures { IfOk result (λ entry. entry ≡ self.now) }
    {
        match self {
            Entry::Tab(tab) => Ok(Entry::Tab(tab.copy()?)),
            Entry::Window(window) => Ok(Entry::Window(window.copy()?)),
        }
    }
}
