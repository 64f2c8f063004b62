//! The tabs and windows that were closed, which a user can bring back: the state of them, and what each command does to
//! it.
//!
//! ```
//! let mut state = ClosedState::start(alloc)?;
//! apply(&mut state, &TabsCommand::SelectedInTab { tab: 1, index: 0, time: 5 })?;
//! apply(&mut state, &TabsCommand::SelectedInTab { tab: 2, index: 0, time: 6 })?;
//! let entries = shown(alloc, &state)?;
//! assert_eq!(rt; entries[0].id(), 2);
//! ```
#![tactic(auto)]

mod changes;
mod closed_tab;
mod closed_window;
mod entry;
mod entry_list;
mod limits;
mod ranges;
mod showing;
mod state;
mod steps;

pub use closed_tab::ClosedTab;
pub use closed_window::ClosedWindow;
pub use entry::Entry;
pub use limits::ENTRIES;
pub use showing::shown;
pub use state::ClosedState;
pub use steps::apply;
