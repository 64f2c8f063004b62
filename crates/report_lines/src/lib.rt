//! A report on its way to a sink. Lines are made in a buffer, which goes out in whole pieces where a line has ended, so
//! a long report takes no more memory than a short one.
//!
//! ```
//! let mut sink = MemorySink::new(alloc, &[])?;
//! let mut waiting = Vec::with_capacity(alloc, PIECE)?;
//! for line in ["header v3\n", "ending whole\n"] {
//!     waiting.extend_from_slice(line.as_bytes())?;
//!     send_piece(&mut sink, &mut waiting)?;
//! }
//! // Both lines are no whole piece, so they still wait.
//! assert_eq!(rt; sink.written().len(), 0);
//! send_rest(&mut sink, &mut waiting)?;
//! assert_eq!(rt; sink.written(), b"header v3\nending whole\n".as_slice());
//! ```
#![tactic(auto)]

mod fault;
mod sending;

pub use fault::ReportFault;
pub use sending::{PIECE, send_piece, send_rest};
