//! One run of a script over the journals of both families: the words, the script, what its lines come to, and what is
//! printed. The outside comes in as values.
//!
//! `drive_inline` does all of it by the thread that calls. `drive` has a second thread write the journals, while the
//! first one reads the script, acts on its lines and prints. That changes when a byte is written and how long a run
//! takes; answer, output, files and what a crash leaves are said of both by the same clause.
//!
//! ```
//! let mut words = Vec::new(alloc);
//! words.push(String::from_str(alloc, "run")?)?;
//! words.push(String::from_str(alloc, "folder")?)?;
//! let mut script = MemorySource::new(alloc, b"tab 1 2\n", &[])?;
//! let mut out = MemorySink::new(alloc, &[])?;
//! let (status, _, _) = drive_inline(
//!     alloc,
//!     &words,
//!     &mut script,
//!     &mut out,
//!     MemoryDisk::empty(alloc)?,
//!     MemoryDisk::empty(alloc)?,
//!     &mut FixedClock::new(100),
//! );
//! assert_eq!(rt; status.code(), 0);
//! ```
#![tactic(auto)]

mod answers;
mod closing;
mod inline;
mod preparing;
mod reading;
mod threaded;

pub use inline::drive_inline;
pub use run_words::{Long, Status, Why, wants_inline};
pub use script_lines::generated;
pub use threaded::{drive, drive_gated};
pub use threaded_run::{Gate, NoGate};
