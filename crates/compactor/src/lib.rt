//! Families of session files as machines. A machine compacts its state: it gives the commands that make the very state
//! of an empty one.
//!
//! ```
//! let state = SessionMachine::start(alloc)?;
//! let commands = SessionMachine::compact(alloc, &state)?;
//! let mut restated = SessionMachine::start(alloc)?;
//! for command in &commands {
//!     SessionMachine::apply(&mut restated, command)?;
//! }
//! ```
#![tactic(auto)]

mod session;

pub use session::SessionMachine;
