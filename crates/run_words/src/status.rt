//! The answers of a run, their exit codes and their last lines.
ghost use Rattle.std.specs.Prelude.{◌≡◌, IfOk, IsOk};
ghost use Rattle.std.specs.String.{string_bytes};
ghost use Rattle.run_words.specs.Outcome.{family_name};

use crate::why::Why;
use session_disk::Family;
use std::alloc::{AllocError, Global};

/// What is too long.
#[derive(Clone, Copy, Debug, PartialEq, Eq)]
pub enum Long {
    Script,
    /// The file of this family.
    File(Family),
}

/// The answer of a run.
#[derive(Clone, Copy, Debug, PartialEq, Eq)]
pub enum Status {
    /// All commands are told: how many of each family.
    Done { session: u64, tabs: u64 },
    /// The words aren't in the grammar.
    Usage,
    /// The line with this number, counted from 1, is the first that is refused.
    Refused { line: u64, why: Why },
    /// The disk of this family failed.
    Disk(Family),
    /// The source failed.
    Read,
    /// The sink failed.
    Write,
    /// More bytes than are allowed; `needed` is how many were seen.
    TooLong { what: Long, needed: u64 },
    /// Memory ran out.
    Memory,
    /// The newest file of this family has the last stamp there is, and no file can follow it.
    LastStamp { family: Family, stamp: u64 },
}

impl Status {
    ghost use Rattle.run_words.specs.Outcome.{code, last_line, unsaid};

    /// The exit code.
    pub fn code(self) -> u8
        ensures { result ≡ code self }
    {
        match self {
            Status::Done { .. } => 0,
            Status::Usage => 2,
            Status::Refused { .. } => 3,
            Status::Disk(_) => 4,
            Status::Read => 5,
            Status::Write => 6,
            Status::TooLong { .. } => 7,
            Status::Memory => 8,
            Status::LastStamp { .. } => 9,
        }
    }

    /// The answer where the last line of this one couldn't be written: a fault stays what it is.
    pub fn unsaid(self) -> Status
        ensures { result ≡ unsaid self }
    {
        match self {
            Status::Done { .. } | Status::Usage | Status::Refused { .. } => Status::Write,
            other => other,
        }
    }

    /// The last line of a run with this answer, with its line feed; empty after a failed write.
    pub fn last_line(self, alloc: Global) -> Result<String, AllocError>
        ensures line { IfOk result (λ line. string_bytes line ≡ last_line self) }
        ensures none { self ≡ Status.Write → IsOk result }
    {
        match self {
            Status::Done { session, tabs } => format!(in alloc; "done {session} {tabs}\n"),
            Status::Usage => String::from_str(alloc, "usage\n"),
            Status::Refused { line, why } => format!(in alloc; "refused {line} {why}\n"),
            Status::Disk(family) => {
                let name = family_name(family);
                format!(in alloc; "fault disk {name}\n")
            }
            Status::Read => String::from_str(alloc, "fault read\n"),
            Status::Write => Ok(String::new(alloc)),
            Status::TooLong { what, needed } => {
                let name = what.name();
                format!(in alloc; "fault too-long {name} {needed}\n")
            }
            Status::Memory => String::from_str(alloc, "fault memory\n"),
            Status::LastStamp { family, stamp } => {
                let name = family_name(family);
                format!(in alloc; "fault last-stamp {name} {stamp}\n")
            }
        }
    }
}

impl Long {
    ghost use Rattle.run_words.specs.Outcome.{long_name};

    // What is too long, as a line names it.
    fn name(self) -> &'static str
        ensures { result.now ≡ long_name self }
    {
        match self {
            Long::Script => "script",
            Long::File(family) => family_name(family),
        }
    }
}

// A family, as a line names it.
fn family_name(family: Family) -> &'static str
    ensures { result.now ≡ family_name family }
{
    match family {
        Family::Session => "session",
        Family::Tabs => "tabs",
    }
}
