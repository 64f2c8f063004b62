//! Why a run halts before its end.
//! A refused line isn't among that: behind it the journals are synced, and the run ends as one that wasn't refused.

use writer_core::Stopped;

/// Why a run halts.
#[derive(Clone, Copy, Debug, PartialEq, Eq)]
pub enum Halt {
    /// A journal refused.
    Journal(Stopped),
    /// The sink failed.
    Write,
    /// Memory ran out.
    Memory,
}
