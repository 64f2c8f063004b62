//! The commands of a tab-restore file: each kind with what its payload says.

use crate::raw::RawCommand;
use navigation_entry::{Bounds, GroupInfo, Navigation};
use pickle_cells::Blob;

/// A command of a tab-restore file. Ids of tabs and windows are signed numbers of 32 bits. A closed window is told by
/// its entry and then its tabs, a tab by its selected page and then what else is known of it.
#[derive(Debug, PartialEq, Eq, Drop)]
pub enum TabsCommand {
    /// Id 1: the page of the closed tab at this index.
    UpdateNavigation {
        tab: i32,
        index: i32,
        navigation: Navigation,
    },
    /// Id 2: the entry of this tab or window was restored.
    RestoredEntry {
        id: i32,
    },
    /// Id 4: a tab was closed at this time, and showed the page with this index.
    SelectedInTab {
        tab: i32,
        index: i32,
        time: i64,
    },
    /// Id 5: whether the closed tab was pinned.
    Pinned {
        pinned: bool,
    },
    /// Id 6: the extension that made the closed tab.
    Extension {
        tab: i32,
        extension: Blob,
        tail: Blob,
    },
    /// Id 7: the application of the closed window.
    WindowApp {
        window: i32,
        name: Blob,
        tail: Blob,
    },
    /// Id 9: a window was closed at this time. It had so many tabs, and showed the one at the place `selected`.
    WindowEntry {
        window: i32,
        selected: i32,
        count: i32,
        time: i64,
        bounds: Bounds,
        tail: Blob,
    },
    /// Id 10: the group of the closed tab, and what was known of it.
    Group {
        group: GroupInfo,
    },
    /// Id 11: the user agent that the closed tab showed; `rest` isn't looked into.
    UserAgent {
        tab: i32,
        rest: Blob,
    },
    /// Id 12: the title that the user gave the closed window.
    UserTitle {
        window: i32,
        title: Blob,
        tail: Blob,
    },
    /// A payload that no row of the table accepts.
    Raw(RawCommand),
}
