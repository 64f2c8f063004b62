//! The verbs of a script, each with what its fields say.

use navigation_entry::Bounds;
use pickle_cells::{Blob, Text16};

/// What a line asks of the browser. Ids of windows and tabs are from 1 to 2^31 - 1, places from 0 to 2^31 - 1. A URL
/// and a title are as long as a line lets them be, at most 8,192 bytes or units.
#[derive(Debug, PartialEq, Eq, Drop)]
pub enum Verb {
    /// The moment from here on, in microseconds since 1601, at least 0.
    At {
        moment: i64,
    },
    /// A new window.
    Window {
        window: i32,
    },
    /// A new tab, in this window.
    Tab {
        window: i32,
        tab: i32,
    },
    /// A new page in a tab, whose page state has `state` bytes, at most 1,000,000. A page state that isn't given has
    /// none, and a title that isn't given is empty.
    Visit {
        tab: i32,
        url: Blob,
        state: u32,
        title: Text16,
    },
    Back {
        tab: i32,
    },
    Forward {
        tab: i32,
    },
    Pin {
        tab: i32,
    },
    Unpin {
        tab: i32,
    },
    Ungroup {
        tab: i32,
    },
    CloseTab {
        tab: i32,
    },
    /// The tab goes to this place in the window.
    Move {
        tab: i32,
        window: i32,
        place: i32,
    },
    /// The tab at this place is the window's selected one.
    Select {
        window: i32,
        place: i32,
    },
    SetBounds {
        window: i32,
        bounds: Bounds,
    },
    /// The tab goes into the group that `high` and `low` name; a title that isn't given is empty.
    Group {
        tab: i32,
        high: u64,
        low: u64,
        colour: u32,
        title: Text16,
    },
    /// The title of the tab's current page.
    Title {
        tab: i32,
        title: Text16,
    },
    /// The window is the active one.
    Active {
        window: i32,
    },
    CloseWindow {
        window: i32,
    },
    /// All that was issued is to be safe on the disk.
    Sync,
    /// The files are to restate what stands.
    Compact,
}
