//! What open tabs and closed ones share: their pages, by rising index, and small calls for their other fields.
//!
//! ```
//! let mut pages = Pages::new(alloc);
//! pages.put(3, navigation)?;
//! // The pages before index 2 go, and the others fall by 2.
//! pages.prune_front(2);
//! assert_eq!(rt; pages.at(0).0, 1);
//! ```
#![tactic(auto)]

mod page_iter;
mod page_vec;
mod pages;
mod part;
mod parts;
pub mod position;
pub mod ranges;
pub mod text;

pub use page_iter::PageIter;
pub use pages::Pages;
