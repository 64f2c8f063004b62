//! What a payload says, in words: those of a command's fields, or why it is raw. They are made of the payload as it
//! stands, so one text shows the same bytes the same way in both families, and no command is made for it.
//!
//! ```
//! // The number 1, the text `ab` and its padding, as a pickle.
//! let payload = [12, 0, 0, 0, 1, 0, 0, 0, 2, 0, 0, 0, b'a', b'b', 0, 0];
//! let mut line = Vec::from_slice(alloc, b"15")?;
//! put_words(alloc, Some(Shape::IntText), 15, &payload, &mut line)?;
//! assert_eq!(rt; line.as_slice(), b"15 1 \"ab\" [0]".as_slice());
//!
//! let mut line = Vec::from_slice(alloc, b"15")?;
//! put_words(alloc, Some(Shape::IntText), 15, &payload[..8], &mut line)?;
//! assert_eq!(rt; line.as_slice(), b"15 raw size-field 12 4".as_slice());
//! ```
#![tactic(auto)]

mod fault;
mod fields;
mod fixed;
mod page;
mod pickled;
mod words;

pub use fields::put_number;
pub use words::put_words;
