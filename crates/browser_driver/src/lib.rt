//! A browser that verbs change: it refuses a verb, or does it and gives the commands that say so.
//!
//! ```
//! let view = View {
//!     windows: Items::new(alloc),
//!     groups: Items::new(alloc),
//!     active: None,
//! };
//! let mut browser = Browser::from_states(alloc, &view, None, &ClosedState::start(alloc)?)?;
//! if let Ok(issued) = browser.act(&Verb::Tab { window: 1, tab: 2 }) {
//!     let told = SessionCommand::TabIndex { tab: 2, index: 0 };
//!     assert_eq!(rt; issued.session.as_slice()[1], told);
//! }
//! let refused = browser.act(&Verb::Back { tab: 2 });
//! assert!(rt; matches!(refused, Err(ActError::Refused(VerbFault::NoBack(2)))));
//! ```
#![tactic(auto)]

mod acting;
mod beginning;
mod browser;
mod closing;
mod edits;
mod entries;
mod fault;
mod issued;
mod moving;
mod opening;
mod order;
mod page;
mod pages;
mod picture;
mod places;
mod seating;
mod tabs;
mod visiting;
mod windows;

pub use browser::Browser;
pub use fault::{ActError, VerbFault};
pub use issued::Issued;
pub use picture::Picture;
