//! How much a state of closed entries holds.

/// The most entries.
pub const ENTRIES: usize = 25;
