//! Which session file counts, what it reads to, the stamp of a fresh one, and the removal of older ones: the steps of a
//! rotation that need no journal.
//!
//! A program replaces the files of a disk so, where `M` is the machine whose commands they hold:
//!
//! ```
//! let mut disk = MemoryDisk::empty(alloc)?;
//! let recovered = recover::<M, _>(alloc, &mut disk)?;
//! let stamp = fresh_stamp(100, recovered.greatest)?;
//! disk.create(stamp)?;
//! disk.append(stamp, b"SNSS\x03\0\0\0\x01\0\xFF")?;
//! disk.sync(stamp)?;
//! disk.settle()?;
//! clear_older(&mut disk, stamp)?;
//! ```
//!
//! Until the whole of the fresh file is there the older one counts, since the marker is its last frame.
#![tactic(auto)]

mod choice;
mod clearing;
mod fault;
mod recovery;
mod stamp;

pub use choice::{Chosen, choose, is_marked};
pub use clearing::clear_older;
pub use fault::RotateFault;
pub use recovery::{Recovered, recover};
pub use stamp::{LastStamp, fresh_stamp};
