//! Reports on one file: what kind of file it is, how many commands it has, and each of them in a line.
//!
//! ```
//! // Version 3, the command 8 (a window, and which of its tabs is selected), and the marker.
//! let file = b"SNSS\x03\0\0\0\x09\0\x08\x01\0\0\0\x02\0\0\0\x01\0\xFF";
//! let mut disk = MemoryDisk::empty(alloc)?;
//! disk.add_file(7, file)?;
//! assert_eq!(rt; FileKind::of(alloc, &mut disk, 7)?, FileKind::Three { marked: true });
//!
//! let mut sink = MemorySink::new(alloc, &[])?;
//! let mut waiting = Vec::with_capacity(alloc, PIECE)?;
//! check(alloc, Family::Session, &mut disk, 7, &mut sink, &mut waiting)?;
//! assert_eq!(rt; waiting.as_slice(), b"header v3\ncommands 2 raw 0\nmarker at 19\nending whole\n".as_slice());
//!
//! waiting.clear();
//! show(alloc, Family::Session, &mut disk, 7, &mut sink, &mut waiting)?;
//! assert_eq!(rt; waiting.as_slice(), b"header v3\n8 8 8 1 2\n19 255 0 marker\nending whole\n".as_slice());
//! send_rest(&mut sink, &mut waiting)?;
//! ```
#![tactic(auto)]

mod checking;
mod ending;
mod fault;
mod head;
mod kind;
mod numbers;
mod showing;
mod tables;
mod tally;

pub use checking::check;
pub use fault::FileReportFault;
pub use kind::FileKind;
pub use showing::show;
