//! A closed window.
ghost use Rattle.std.specs.Prelude.{◌≡◌, IfOk};
ghost use Rattle.closed_entries.specs.Changes.{new_window};

use crate::closed_tab::ClosedTab;
use item_list::Items;
use navigation_entry::Bounds;
use pickle_cells::Blob;
use std::alloc::{AllocError, Global};
use tab_pages::text;

/// A closed window with the index of the tab that it showed (`selected`), the time at which it was closed and its
/// tabs in their order. It owns its texts and tabs.
#[derive(Drop)]
pub struct ClosedWindow {
    pub id: i32,
    pub selected: i32,
    pub time: i64,
    pub bounds: Bounds,
    pub app: Option<Blob>,
    pub title: Option<Blob>,
    pub tabs: Items<ClosedTab>,
}

impl ClosedWindow {
    /// A window without tabs.
    pub(crate) fn new(
        alloc: Global,
        id: i32,
        selected: i32,
        time: i64,
        bounds: Bounds,
    ) -> ClosedWindow
        ensures { result ≡ new_window id selected time bounds }
    {
        ClosedWindow {
            id,
            selected,
            time,
            bounds,
            app: None,
            title: None,
            tabs: Items::new(alloc),
        }
    }

    /// The same window, in memory of its own: an allocation for each text and for each list.
    pub fn copy(&self) -> Result<ClosedWindow, AllocError>
        ensures { IfOk result (λ window. window ≡ self.now) }
    {
        let app = text::copy(&self.app)?;
        let title = text::copy(&self.title)?;
        let tabs = copy_tabs(self.tabs.allocator(), self.tabs.as_slice())?;
        Ok(ClosedWindow {
            id: self.id,
            selected: self.selected,
            time: self.time,
            bounds: self.bounds,
            app,
            title,
            tabs: Items::from_vec(tabs),
        })
    }
}

fn copy_tabs(alloc: Global, tabs: &[ClosedTab]) -> Result<Vec<ClosedTab>, AllocError>
    ensures { IfOk result (λ v. v.items ≡ tabs.now) }
{
    let mut copied = Vec::with_capacity(alloc, tabs.len())?;
    for tab in tabs {
        copied.push(tab.copy()?)?;
    }
    Ok(copied)
}
