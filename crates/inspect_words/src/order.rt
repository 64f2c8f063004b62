//! What an inspection is asked for.

use session_disk::Family;

/// A report on one file.
#[derive(Clone, Copy, Debug, PartialEq, Eq)]
pub enum FileReport {
    /// How many commands it has, and how it ends.
    Check,
    /// Each of its commands.
    Show,
}

/// A report on what the files of both families read to.
#[derive(Clone, Copy, Debug, PartialEq, Eq)]
pub enum StateReport {
    /// A line a window, a tab and a closed entry.
    Lines,
    /// One value of JSON.
    Json,
}

/// A report on the files of a folder.
#[derive(Clone, Copy, Debug, PartialEq, Eq)]
pub enum Order {
    /// Each file of both families, with its length and its kind.
    List,
    OfState(StateReport),
    /// The stamp is below 2^63.
    OfFile {
        report: FileReport,
        family: Family,
        stamp: u64,
    },
}
