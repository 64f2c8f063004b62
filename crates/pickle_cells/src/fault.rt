//! Why the bytes of a pickle don't read.

use thiserror::Error;

/// The first item that doesn't read. `at` is the offset in the pickle of that item's first byte, from 0 to 65,534.
#[derive(Clone, Copy, Debug, PartialEq, Eq, Error)]
pub enum PickleFault {
    /// The bytes of the item aren't all there.
    #[error("the item at byte {at} isn't all there")]
    Short { at: u32 },
    /// The size field, `said`, isn't the number of bytes behind it, `present`, or isn't a multiple of 4.
    #[error("the size field says {said} bytes, and {present} stand behind it")]
    SizeField { said: u32, present: u32 },
    /// The count of a string is negative.
    #[error("the string at byte {at} has the negative length {length}")]
    NegativeLength { at: u32, length: i32 },
}
