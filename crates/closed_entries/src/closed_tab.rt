//! A closed tab.
ghost use Rattle.std.specs.Prelude.{◌≡◌, IfOk};
ghost use Rattle.closed_entries.specs.Changes.{new_tab};

use navigation_entry::GroupInfo;
use pickle_cells::Blob;
use std::alloc::{AllocError, Global};
use tab_pages::{Pages, text};

/// A closed tab with the index of the page that it showed (`selected`) and the time at which it was closed. It owns
/// its texts and pages.
#[derive(Drop)]
pub struct ClosedTab {
    pub id: i32,
    pub selected: i32,
    pub time: i64,
    pub pinned: bool,
    pub extension: Option<Blob>,
    /// The user agent, as the bytes behind the tab's number in its command.
    pub agent: Option<Blob>,
    pub group: Option<GroupInfo>,
    pub pages: Pages,
}

impl ClosedTab {
    /// A tab of which nothing else is known.
    pub(crate) fn new(alloc: Global, id: i32, selected: i32, time: i64) -> ClosedTab
        ensures { result ≡ new_tab id selected time }
    {
        ClosedTab {
            id,
            selected,
            time,
            pinned: false,
            extension: None,
            agent: None,
            group: None,
            pages: Pages::new(alloc),
        }
    }

    /// The same tab, in memory of its own: an allocation for each text and for the list of pages.
    pub fn copy(&self) -> Result<ClosedTab, AllocError>
        ensures { IfOk result (λ tab. tab ≡ self.now) }
    {
        let extension = text::copy(&self.extension)?;
        let agent = text::copy(&self.agent)?;
        let group = copy_group(&self.group)?;
        let pages = self.pages.copy()?;
        Ok(ClosedTab {
            id: self.id,
            selected: self.selected,
            time: self.time,
            pinned: self.pinned,
            extension,
            agent,
            group,
            pages,
        })
    }
}

fn copy_group(group: &Option<GroupInfo>) -> Result<Option<GroupInfo>, AllocError>
    ensures { IfOk result (λ g. g ≡ group.now) }
{
    match group {
        Some(group) => Ok(Some(group.copy()?)),
        None => Ok(None),
    }
}
