//! Closed entries as a machine. It compacts its state: it gives the commands that make the very state of an empty one.
//!
//! ```
//! let mut state = TabsMachine::start(alloc)?;
//! TabsMachine::apply(&mut state, &TabsCommand::SelectedInTab { tab: 4, index: 0, time: 6 })?;
//! TabsMachine::apply(&mut state, &TabsCommand::RestoredEntry { id: 7 })?;
//! // The tab that was closed, and that no entry is open.
//! let commands = TabsMachine::compact(alloc, &state)?;
//! assert_eq!(rt; commands[1], TabsCommand::RestoredEntry { id: 0 });
//! ```
#![tactic(auto)]

mod compaction;
mod entry;
mod machine;
mod tab;
mod tidying;
mod weight;
mod window;

pub use entry::entry_commands;
pub use machine::TabsMachine;
pub use tidying::tidy;
