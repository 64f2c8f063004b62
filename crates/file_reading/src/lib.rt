//! Files of a disk, read in pieces: what the head of one says, and its frames, one after another. A file of any size is
//! read through one feed of 65,537 bytes and a piece of 4,096.
//!
//! ```
//! let mut disk = MemoryDisk::empty(alloc)?;
//! disk.add_file(7, b"SNSS\x03\0\0\0\x01\0\xFF")?;
//! assert_eq!(rt; read_head(&mut disk, 7)?, FileHead::Known(Version::Three));
//! let mut reader = FrameReader::new(alloc, &mut disk, 7)?;
//! while let Some(frame) = reader.next(&mut disk)? {
//!     assert!(rt; frame.is_marker());
//! }
//! assert_eq!(rt; reader.ending(), Ending::Whole);
//! ```
#![tactic(auto)]

mod fill;
mod head;
mod reader;

pub use head::{FileHead, read_head};
pub use reader::{FIRST_FRAME, FrameReader};
