//! What an inspection is asked for by the words of its command line, and its answers with their exit codes.
//!
//! ```
//! let mut words = Vec::new(alloc);
//! for word in ["show", "tabs", "1700000000", "folder"] {
//!     words.push(String::from_str(alloc, word)?)?;
//! }
//! let order = read_words(&words).ok_or("usage")?;
//! let (report, family) = (FileReport::Show, Family::Tabs);
//! assert_eq!(rt; order, Order::OfFile { report, family, stamp: 1_700_000_000 });
//! assert_eq!(rt; InspectStatus::NoStamp(7).code(), 3);
//! ```
#![tactic(auto)]

mod order;
mod status;
mod words;

pub use order::{FileReport, Order, StateReport};
pub use status::{InspectStatus, no_stamp_line};
pub use words::read_words;
