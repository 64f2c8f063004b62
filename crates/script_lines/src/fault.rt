//! Why a line isn't read.
ghost use Rattle.std.specs.Prelude.{◌≡◌, Some};
ghost use Rattle.script_lines.specs.Faults.{fault_word};
ghost use Rattle.script_lines.specs.declared.fault.LineError.TheVariants.{Fault, Memory};

use std::alloc::AllocError;
use std::error::Error;
use std::fmt;

/// What is wrong with a line. Where more than one of them holds, it is the first in this order.
#[derive(Clone, Copy, Debug, PartialEq, Eq)]
pub enum LineFault {
    /// It has more than 8,192 bytes.
    LongLine,
    /// It isn't UTF-8.
    Utf8,
    /// Its first field isn't a verb.
    UnknownVerb,
    /// A field is missing, surplus or empty.
    Arguments,
    /// A field isn't its number.
    Number,
}

impl fmt::Display for LineFault {
    ghost output = { λ fault. Some (fault_word fault) };

    fn fmt<W: fmt::Write>(&self, f: &mut fmt::Formatter<W>) -> fmt::Result {
        match self {
            LineFault::LongLine => f.write_str("long-line"),
            LineFault::Utf8 => f.write_str("utf8"),
            LineFault::UnknownVerb => f.write_str("unknown-verb"),
            LineFault::Arguments => f.write_str("arguments"),
            LineFault::Number => f.write_str("number"),
        }
    }
}

impl Error for LineFault {}

/// Why a line gave no verb.
#[derive(Clone, Copy, Debug, PartialEq, Eq)]
pub enum LineError {
    /// The line is refused.
    Fault(LineFault),
    /// Memory ran out.
    Memory,
}

impl From<AllocError> for LineError {
    ghost from_gives = { λ _ e. e ≡ Memory };

    fn from(_: AllocError) -> Self {
        LineError::Memory
    }
}

impl From<LineFault> for LineError {
    ghost from_gives = { λ fault e. e ≡ Fault fault };

    fn from(fault: LineFault) -> Self {
        LineError::Fault(fault)
    }
}
