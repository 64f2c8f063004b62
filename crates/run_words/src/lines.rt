//! The lines that a run prints before its last one, each with its line feed.
ghost use Rattle.std.specs.Prelude.{◌≡◌, IfOk};
ghost use Rattle.std.specs.String.{string_bytes};
ghost use Rattle.run_words.specs.Outcome.{start_line, sync_line};

use std::alloc::{AllocError, Global};

/// How many windows and tabs a view shows, and how many entries are closed.
#[derive(Clone, Copy, Debug, PartialEq, Eq)]
pub struct Counts {
    pub windows: u64,
    pub tabs: u64,
    pub entries: u64,
}

/// The line of a start with these counts.
pub fn start_line(alloc: Global, counts: Counts) -> Result<String, AllocError>
    ensures { IfOk result (λ line. string_bytes line ≡ start_line counts) }
{
    let Counts {
        windows,
        tabs,
        entries,
    } = counts;
    format!(in alloc; "start {windows} {tabs} {entries}\n")
}

/// The line of a sync, with the numbers of commands that were issued to each family.
pub fn sync_line(alloc: Global, session: u64, tabs: u64) -> Result<String, AllocError>
    ensures { IfOk result (λ line. string_bytes line ≡ sync_line session tabs) }
{
    format!(in alloc; "sync {session} {tabs}\n")
}
