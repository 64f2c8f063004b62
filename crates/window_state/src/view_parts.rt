//! What a user sees of a state.
ghost use Rattle.std.specs.Prelude.{◌≡◌, IfOk};

use crate::part::{Part, copied};
use crate::tab::TabInfo;
use crate::window::WindowInfo;
use item_list::Items;
use navigation_entry::{GroupInfo, Navigation};
use std::alloc::AllocError;

/// A shown tab: its pages in their order, and the place of the current one among them.
#[derive(Drop)]
pub struct ViewTab {
    pub info: TabInfo,
    pub pages: Items<Navigation>,
    pub current: u32,
}

impl Part for ViewTab {
    fn copy(&self) -> Result<ViewTab, AllocError> {
        let info = self.info.copy()?;
        let pages = copied(self.pages.allocator(), self.pages.as_slice())?;
        Ok(ViewTab {
            info,
            pages: Items::from_vec(pages),
            current: self.current,
        })
    }
}

/// A shown window: its shown tabs in the order of their places, and the place of the selected one among them.
#[derive(Drop)]
pub struct ViewWindow {
    pub info: WindowInfo,
    pub selected: u32,
    pub tabs: Items<ViewTab>,
}

impl Part for ViewWindow {
    fn copy(&self) -> Result<ViewWindow, AllocError> {
        let info = self.info.copy()?;
        let tabs = copied(self.tabs.allocator(), self.tabs.as_slice())?;
        Ok(ViewWindow {
            info,
            selected: self.selected,
            tabs: Items::from_vec(tabs),
        })
    }
}

/// The shown windows by rising id, the groups of their tabs, and the active window, None where none is shown.
#[derive(Drop)]
pub struct View {
    pub windows: Items<ViewWindow>,
    pub groups: Items<GroupInfo>,
    pub active: Option<i32>,
}

impl View {
    /// The same view, in memory of its own.
    pub fn copy(&self) -> Result<View, AllocError>
        ensures { IfOk result (λ v. v ≡ self.now) }
    {
        let alloc = self.windows.allocator();
        let windows = copied(alloc, self.windows.as_slice())?;
        let groups = copied(alloc, self.groups.as_slice())?;
        Ok(View {
            windows: Items::from_vec(windows),
            groups: Items::from_vec(groups),
            active: self.active,
        })
    }
}

impl Part for Navigation {
    fn copy(&self) -> Result<Navigation, AllocError> {
        Navigation::copy(self)
    }
}

impl Part for GroupInfo {
    fn copy(&self) -> Result<GroupInfo, AllocError> {
        GroupInfo::copy(self)
    }
}
