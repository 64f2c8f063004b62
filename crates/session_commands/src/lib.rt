//! The commands of session files, read and written exactly. A payload that no row of the table accepts is kept
//! as it is.
//!
//! ```
//! let command = SessionCommand::read(alloc, 0, &[1, 0, 0, 0, 2, 0, 0, 0])?;
//! if let SessionCommand::TabWindow { window, tab } = &command {
//!     assert_eq!(rt; (*window, *tab), (1, 2));
//! }
//! let mut payload = Vec::new(alloc);
//! command.write(&mut payload)?;
//! ```
#![tactic(auto)]

mod command;
mod copying;
mod making;
mod raw;
mod reading;
mod table;
mod writing;

pub use command::SessionCommand;
pub use payload_rows::PayloadFault;
pub use raw::RawCommand;
