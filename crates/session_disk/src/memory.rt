//! The outside simulated in memory: a disk whose calls fail as planned and whose crashes can be asked for, streams over
//! bytes, and a clock that stands still.
mod change_log;
mod clock;
mod crash;
mod disk;
mod failure_plan;
mod file_list;
mod recording;
mod streams;

pub use clock::FixedClock;
pub use crash::Keep;
pub use disk::MemoryDisk;
pub use failure_plan::{Call, Failure};
pub use file_list::DiskFile;
pub use streams::{MemorySink, MemorySource};
