//! A list that contracts see as its items: the parts of views, the pairs behind a navigation and the bytes of a file in
//! memory are such lists.
//!
//! ```
//! let mut marks = Items::from_slice(alloc, b"ab")?;
//! marks.push(b'c')?;
//! assert_eq!(rt; marks.as_slice(), b"abc".as_slice());
//! ```
#![tactic(auto)]

mod items;

pub use items::Items;
