//! What one command changes in a tab or in a window.

use crate::group_id::GroupId;
use navigation_entry::{Bounds, Navigation};
use pickle_cells::Blob;

/// A change of a tab that leaves it in its window.
#[derive(Drop)]
pub enum TabChange {
    /// Its place among the tabs of its window.
    Index(i32),
    /// The page at an index; a negative index changes nothing.
    Page(i32, Navigation),
    /// The index of the page that it shows.
    Current(i32),
    /// Pages from this index on go.
    PruneBack(i32),
    /// So many indices at the front go, and the others fall by their number.
    PruneFront(i32),
    /// From this index on so many go, and later ones fall by their number.
    Prune(i32, i32),
    Pinned(bool),
    Extension(Blob),
    Storage(Blob),
    Guid(Blob),
    Agent(Blob),
    Group(Option<GroupId>),
    LastActive(i64),
    /// The value under a key.
    ExtraValue(Blob, Blob),
}

/// A change of a tab, or its window.
#[derive(Drop)]
pub enum TabStep {
    Placed(i32),
    Changed(TabChange),
}

/// A change of a tab that takes no memory.
#[derive(Drop)]
pub enum TabEdit {
    /// Its place among the tabs of its window.
    Index(i32),
    /// The index of the page that it shows.
    Current(i32),
    /// Pages from this index on go.
    PruneBack(i32),
    /// So many indices at the front go, and the others fall by their number.
    PruneFront(i32),
    Pinned(bool),
    Group(Option<GroupId>),
    LastActive(i64),
}

/// A change of a window.
#[derive(Drop)]
pub enum WindowChange {
    /// The index of the tab that it shows.
    Selected(i32),
    Kind(i32),
    Bounded(Bounds),
    App(Blob),
    Workspace(Blob),
    AllWorkspaces(bool),
    Title(Blob),
    /// The value under a key.
    ExtraValue(Blob, Blob),
}

/// A change of a window that takes no memory.
#[derive(Drop)]
pub enum WindowEdit {
    /// The index of the tab that it shows.
    Selected(i32),
    Bounded(Bounds),
}
