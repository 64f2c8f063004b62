//! What tells groups of tabs apart.

/// A group's token: two numbers, compared one after the other.
#[derive(Clone, Copy, PartialEq, Eq, PartialOrd, Ord)]
pub struct GroupId {
    pub high: u64,
    pub low: u64,
}
