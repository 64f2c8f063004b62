//! What a run is asked for: how its script comes, and what limits its journals.

use log_writer::Limits;

/// How the script comes.
#[derive(Clone, Copy, Debug, PartialEq, Eq)]
pub enum Origin {
    /// It is read, and has at most so many bytes: from 1 to 2^30.
    Script { most: usize },
    /// It is generated from the number `x`, with so many lines: from 1 to 1,000,000.
    Generated { x: u64, count: u64 },
}

/// What the words ask for.
#[derive(Clone, Copy, Debug, PartialEq, Eq)]
pub struct Order {
    pub origin: Origin,
    pub limits: Limits,
}
