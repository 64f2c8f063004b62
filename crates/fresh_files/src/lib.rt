//! Fresh files: the bytes that restate a state, and the rotation that puts them in the place of the older files. A
//! crash at any moment of it leaves the older files, or the fresh one whole.
//!
//! A state of the machine `M` is restated in a fresh file so:
//!
//! ```
//! let mut disk = MemoryDisk::empty(alloc)?;
//! let state = M::start(alloc)?;
//! let bytes = fresh_file::<M>(alloc, &state)?;
//! let stamp = rotate(&mut disk, &mut FixedClock::new(100), &bytes)?;
//! assert_eq!(rt; stamp, 100);
//! ```
#![tactic(auto)]

mod fresh;
mod lay;
mod rotation;

pub use fresh::{fresh_file, push_frame};
pub use rotation::{RotationFault, rotate};
