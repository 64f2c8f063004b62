//! The answers of an inspection and their exit codes.
ghost use Rattle.std.specs.Prelude.{◌≡◌, IfOk};
ghost use Rattle.std.specs.String.{string_bytes};
ghost use Rattle.inspect_words.specs.Outcome.{no_stamp_line};

use session_disk::Family;
use std::alloc::{AllocError, Global};

/// The answer of an inspection.
#[derive(Clone, Copy, Debug, PartialEq, Eq)]
pub enum InspectStatus {
    /// The report was written to its end.
    Done,
    /// The words aren't in the grammar.
    Usage,
    /// No file of the family has the stamp.
    NoStamp(u64),
    /// The disk of this family failed.
    Disk(Family),
    /// The sink failed.
    Write,
    /// Memory ran out.
    Memory,
}

impl InspectStatus {
    ghost use Rattle.inspect_words.specs.Outcome.{code};

    /// The exit code.
    pub fn code(self) -> u8
        ensures { result ≡ code self }
    {
        match self {
            InspectStatus::Done => 0,
            InspectStatus::Usage => 2,
            InspectStatus::NoStamp(_) => 3,
            InspectStatus::Disk(_) => 4,
            InspectStatus::Write => 6,
            InspectStatus::Memory => 8,
        }
    }
}

/// The line that says that no file has a stamp.
pub fn no_stamp_line(alloc: Global, stamp: u64) -> Result<String, AllocError>
    ensures { IfOk result (λ line. string_bytes line ≡ no_stamp_line stamp) }
{
    format!(in alloc; "no-stamp {stamp}\n")
}
