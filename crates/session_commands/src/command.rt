//! The commands of a session file: each kind with what its payload says.

use crate::raw::RawCommand;
use navigation_entry::{Bounds, GroupInfo, Navigation};
use pickle_cells::Blob;

/// A command of a session file. Ids of tabs and windows are signed numbers of 32 bits.
#[derive(Debug, PartialEq, Eq, Drop)]
pub enum SessionCommand {
    /// Id 0: the tab stands in the window.
    TabWindow {
        window: i32,
        tab: i32,
    },
    /// Id 2: the tab's place among the tabs of its window.
    TabIndex {
        tab: i32,
        index: i32,
    },
    /// Id 5: pages of the tab from this index on are gone.
    PrunedBack {
        tab: i32,
        index: i32,
    },
    /// Id 6: the page of the tab at this index.
    UpdateNavigation {
        tab: i32,
        index: i32,
        navigation: Navigation,
    },
    /// Id 7: the tab shows the page with this index.
    SelectNavigation {
        tab: i32,
        index: i32,
    },
    /// Id 8: the window shows the tab with this index.
    SelectTab {
        window: i32,
        index: i32,
    },
    /// Id 9: what kind of window it is.
    WindowKind {
        window: i32,
        kind: i32,
    },
    /// Id 11: so many of the first pages of the tab are gone.
    PrunedFront {
        tab: i32,
        count: i32,
    },
    /// Id 12: whether the tab is pinned.
    Pinned {
        tab: i32,
        pinned: bool,
    },
    /// Id 13: the extension that made the tab.
    Extension {
        tab: i32,
        extension: Blob,
        tail: Blob,
    },
    /// Id 14: where the window stands on the screen.
    WindowBounds {
        window: i32,
        bounds: Bounds,
    },
    /// Id 15: the application of the window.
    WindowApp {
        window: i32,
        name: Blob,
        tail: Blob,
    },
    /// Id 16: the tab was closed at this time.
    TabClosed {
        tab: i32,
        time: i64,
    },
    /// Id 17: the window was closed at this time.
    WindowClosed {
        window: i32,
        time: i64,
    },
    /// Id 19: the name of the tab's storage.
    SessionStorage {
        tab: i32,
        storage: Blob,
        tail: Blob,
    },
    /// Id 20: the window has the focus.
    ActiveWindow {
        window: i32,
    },
    /// Id 21: when the tab had the focus last.
    LastActive {
        tab: i32,
        time: i64,
    },
    /// Id 23: the workspace of the window.
    Workspace {
        window: i32,
        workspace: Blob,
        tail: Blob,
    },
    /// Id 24: so many pages of the tab from this index on are gone.
    Pruned {
        tab: i32,
        index: i32,
        count: i32,
    },
    /// Id 25: the group of the tab, a token of two numbers, and none where it isn't grouped.
    TabGroup {
        tab: i32,
        high: u64,
        low: u64,
        grouped: bool,
    },
    /// Id 27: what is known of a group.
    GroupData {
        group: GroupInfo,
    },
    /// Id 28: the tab's own name.
    TabGuid {
        tab: i32,
        guid: Blob,
        tail: Blob,
    },
    /// Id 29: the user agent that the tab shows; `rest` isn't looked into.
    UserAgent {
        tab: i32,
        rest: Blob,
    },
    /// Id 31: the title that the user gave the window.
    UserTitle {
        window: i32,
        title: Blob,
        tail: Blob,
    },
    /// Id 32: whether the window is shown on all workspaces.
    AllWorkspaces {
        window: i32,
        all: bool,
    },
    /// Id 33: a value of the tab under a key.
    TabExtra {
        tab: i32,
        key: Blob,
        value: Blob,
        tail: Blob,
    },
    /// Id 34: a value of the window under a key.
    WindowExtra {
        window: i32,
        key: Blob,
        value: Blob,
        tail: Blob,
    },
    /// A payload that no row of the table accepts.
    Raw(RawCommand),
}
