//! The commands that tidy the state of a session: after them it shows the same, and all its tabs and windows are shown.
//!
//! ```
//! let mut state = SessionState::start(alloc)?;
//! state.place_tab(1, 2)?;
//! // A tab without pages isn't shown, so neither is its window.
//! let commands = tidy(alloc, &state)?;
//! assert_eq!(rt; commands[0], SessionCommand::TabClosed { tab: 2, time: 0 });
//! assert_eq!(rt; commands[1], SessionCommand::WindowClosed { window: 1, time: 0 });
//! ```
#![tactic(auto)]

mod active;
mod gaps;
mod tab;
mod tidying;
mod window;

pub use tidying::tidy;
