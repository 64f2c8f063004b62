//! What a run is asked for by the words of its command line, and the words in which it answers: its lines and exit
//! codes.
//!
//! ```
//! let mut words = Vec::new(alloc);
//! for word in ["gen", "--every", "10", "7", "1000", "folder"] {
//!     words.push(String::from_str(alloc, word)?)?;
//! }
//! let order = read_words(&words).ok_or("usage")?;
//! assert_eq!(rt; order.origin, Origin::Generated { x: 7, count: 1000 });
//! assert_eq!(rt; order.limits.every, 10);
//! let status = Status::Done { session: 2, tabs: 0 };
//! assert_eq!(rt; status.last_line(alloc)?.as_str(), "done 2 0\n");
//! ```
#![tactic(auto)]

mod lines;
mod options;
mod order;
mod status;
mod why;
mod words;

pub use lines::{Counts, start_line, sync_line};
pub use order::{Order, Origin};
pub use status::{Long, Status};
pub use why::Why;
pub use words::{read_words, wants_inline};
