//! How bytes and 16-bit units that nobody here wrote are shown in a line: as printable ASCII characters without a
//! double quote, so that no control byte reaches a terminal, and so that different texts look different.
//!
//! ```
//! let mut line = Vec::from_slice(alloc, b"title \"")?;
//! // An escape sequence of a terminal, a quote, and half a surrogate pair.
//! show_units(&[0x1B, 0x5B, 0x6D, 0x22, 0xD800], &mut line)?;
//! line.push(b'"')?;
//! assert_eq!(rt; line.as_slice(), b"title \"\\u001b[m\\x22\\ud800\"".as_slice());
//!
//! let mut line = Vec::new(alloc);
//! show_bytes(b"C:\\caf\xC3\xA9 ", &mut line)?;
//! // The unit 0x00E9, as a file has it.
//! show_pairs(&[0xE9, 0x00], &mut line)?;
//! assert_eq!(rt; line.as_slice(), b"C:\\\\caf\\xc3\\xa9 \\u00e9".as_slice());
//! ```
#![tactic(auto)]

mod bytes;
mod escapes;
mod pairs;
mod units;

pub use bytes::show_bytes;
pub use pairs::show_pairs;
pub use units::show_units;
