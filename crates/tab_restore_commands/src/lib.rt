//! The commands of tab-restore files, read and written exactly. A payload that no row of the table accepts is kept
//! as it is.
//!
//! ```
//! let command = TabsCommand::read(alloc, 5, &[7])?;
//! if let TabsCommand::Pinned { pinned } = &command {
//!     assert_eq!(rt; *pinned, true);
//! }
//! let mut payload = Vec::new(alloc);
//! command.write(&mut payload)?;
//! assert_eq!(rt; payload.as_slice(), [1].as_slice());
//! ```
#![tactic(auto)]

mod command;
mod copying;
mod making;
mod raw;
mod reading;
mod table;
mod writing;

pub use command::TabsCommand;
pub use payload_rows::PayloadFault;
pub use raw::RawCommand;
