//! The form of SNSS session files: a header of eight bytes, then commands in frames, each a size, an id and a
//! payload. Frames are read from borrowed bytes, or from a feed of bytes that come in pieces.
//!
//! ```
//! let mut file = Vec::from_array(alloc, write_header(Version::Three))?;
//! write_frame(255, &[], &mut file)?;
//! let mut feed = FrameFeed::new(alloc, 8)?;
//! feed.feed(&file[8..]);
//! while let Some(frame) = feed.next() {
//!     assert!(rt; frame.is_marker());
//! }
//! assert_eq!(rt; feed.finish(), Ending::Whole);
//! ```
#![tactic(auto)]

mod ending;
mod feed;
mod frame;
mod header;

pub use ending::{Ending, ending_of};
pub use feed::{FEED_ROOM, FrameFeed};
pub use frame::{FRAME_HEAD, FrameRef, PAYLOAD_MAX, complete_frame, first_frame, write_frame};
pub use header::{HeaderFault, Version, read_header, write_header};
