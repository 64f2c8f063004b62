//! The outside as traits: where input comes from, where output goes, the clock, and the disk that holds the session
//! files of one family; with implementations in memory and over the real system.
//!
//! A disk in memory says what a crash may leave of it:
//!
//! ```
//! let mut disk = MemoryDisk::empty(alloc)?;
//! disk.create(7)?;
//! disk.append(7, b"SNSS")?;
//! // Nothing is synced, so a crash may leave a part of the file.
//! let left = disk.crash(&[Keep { stamp: 7, bytes: 3 }])?;
//! assert!(rt; left.is_some());
//! ```
//!
//! Code that is generic over `SessionDisk` runs on it and on a `FolderDisk` alike.
#![tactic(auto)]

mod clock;
mod disk;
mod failure;
mod family;
mod memory;
mod reading;
mod real;
mod stream;
mod writing;

pub use clock::Clock;
pub use disk::SessionDisk;
pub use failure::{DiskError, Failed, ReadError};
pub use family::{Family, file_name, stamp_of};
pub use memory::{Call, DiskFile, Failure, FixedClock, Keep, MemoryDisk, MemorySink, MemorySource};
pub use reading::read_to_end;
pub use real::{FolderDisk, StdClock, StdSink, StdSource};
pub use stream::{Sink, Source};
pub use writing::write_all;
