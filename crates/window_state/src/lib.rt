//! The state of a session's tabs, windows and groups, and the view of it that a user sees.
//!
//! ```
//! let mut state = SessionState::start(alloc)?;
//! state.place_tab(1, 2)?;
//! let shown = view(alloc, &state)?;
//! // A tab without pages isn't shown.
//! assert!(rt; shown.windows.is_empty());
//! ```
#![tactic(auto)]

mod change;
mod current;
mod extra;
mod group_id;
mod group_rows;
mod members;
mod part;
mod ranges;
mod rows;
mod shown;
mod state;
mod tab;
mod tab_rows;
mod view_parts;
mod viewing;
mod window;
mod window_rows;

pub use change::{TabChange, TabEdit, TabStep, WindowChange, WindowEdit};
pub use extra::Extra;
pub use group_id::GroupId;
pub use rows::{Changing, Editing, Row, Rows};
pub use shown::Shown;
pub use state::SessionState;
pub use tab::{Tab, TabInfo};
pub use view_parts::{View, ViewTab, ViewWindow};
pub use viewing::view;
pub use window::{Window, WindowInfo};
