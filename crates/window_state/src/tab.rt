//! A tab.
ghost use Rattle.std.specs.Prelude.{◌≡◌, IfOk};

use crate::extra::Extra;
use crate::group_id::GroupId;
use pickle_cells::Blob;
use std::alloc::AllocError;
use tab_pages::{Pages, text};

/// What is known of a tab beside its place and its pages. It owns its texts.
#[derive(Drop)]
pub struct TabInfo {
    pub id: i32,
    pub pinned: bool,
    pub extension: Option<Blob>,
    pub storage: Option<Blob>,
    pub guid: Option<Blob>,
    /// The user agent, as the bytes behind the tab's number in its command.
    pub agent: Option<Blob>,
    pub group: Option<GroupId>,
    pub last_active: i64,
    pub extra: Extra,
}

impl TabInfo {
    /// The same, in memory of its own.
    pub fn copy(&self) -> Result<TabInfo, AllocError>
        ensures { IfOk result (λ info. info ≡ self.now) }
    {
        let extension = text::copy(&self.extension)?;
        let storage = text::copy(&self.storage)?;
        let guid = text::copy(&self.guid)?;
        let agent = text::copy(&self.agent)?;
        let extra = self.extra.copy()?;
        Ok(TabInfo {
            id: self.id,
            pinned: self.pinned,
            extension,
            storage,
            guid,
            agent,
            group: self.group,
            last_active: self.last_active,
            extra,
        })
    }
}

/// A tab with its window, its place there (`index`), the index of its current page and its pages.
#[derive(Drop)]
pub struct Tab {
    pub info: TabInfo,
    pub window: Option<i32>,
    pub index: i32,
    pub current: i32,
    pub pages: Pages,
}
