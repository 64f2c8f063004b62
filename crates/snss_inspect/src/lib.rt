//! The inspection of session files: what is in any of them, whoever wrote it, and what they read to.
//!
//! ```
//! let mut words = Vec::new(alloc);
//! for word in ["list", "folder"] {
//!     words.push(String::from_str(alloc, word)?)?;
//! }
//! let mut session = MemoryDisk::empty(alloc)?;
//! session.add_file(7, b"SNSS\x03\0\0\0\x01\0\xFF")?;
//! let mut out = MemorySink::new(alloc, &[])?;
//! let (status, _session, _tabs) = inspect(alloc, &words, &mut out, session, MemoryDisk::empty(alloc)?);
//! assert_eq!(rt; status, InspectStatus::Done);
//! assert_eq!(rt; out.written(), b"Session_7 11 v3 marked chosen\n".as_slice());
//! ```
#![tactic(auto)]

mod files;
mod inspection;
mod listing;
mod states;
mod stops;

pub use inspect_words::InspectStatus;
pub use inspection::inspect;
