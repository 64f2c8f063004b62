//! What each command of a session does to its state.
//!
//! ```
//! let mut state = SessionState::start(alloc)?;
//! apply(&mut state, &SessionCommand::TabWindow { window: 1, tab: 2 })?;
//! assert_eq!(rt; state.tabs().len(), 1);
//! ```
#![tactic(auto)]

mod changes;
mod steps;

pub use steps::apply;
