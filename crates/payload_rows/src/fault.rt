//! Why a payload is kept raw.

use pickle_cells::PickleFault;
use thiserror::Error;

/// The first test of the table that a payload fails.
#[derive(Clone, Copy, Debug, PartialEq, Eq, Error)]
pub enum PayloadFault {
    /// The id has no row.
    #[error("no command has this id")]
    UnknownId,
    /// A payload of fixed length has another length, in bytes.
    #[error("the payload has {present} bytes in place of {wanted}")]
    Length { wanted: u32, present: u32 },
    /// A pickle's size field or an item of it doesn't read.
    #[error("the payload doesn't read as a pickle: {0}")]
    Pickle(PickleFault),
}
