//! The lines of a script: a text is cut into lines, and a line is read as a verb with what its fields say. The crate
//! makes no command.
//!
//! ```
//! let (line, rest) = first_line(b"tab 1 2\nfly 3");
//! assert_eq!(rt; read_line(alloc, line), Ok(Some(Verb::Tab { window: 1, tab: 2 })));
//! assert_eq!(rt; read_line(alloc, rest), Err(LineError::Fault(LineFault::UnknownVerb)));
//! assert_eq!(rt; read_line(alloc, b"# 3"), Ok(None));
//!
//! let script = generated(alloc, 1, 2)?;
//! assert_eq!(rt; script.as_slice(), b"tab 3 1\nvisit 1 http://h75/ 153 p1\n".as_slice());
//! ```
#![tactic(auto)]

mod fault;
mod fields;
mod generator;
mod lines;
mod numbers;
mod reading;
mod verb;

pub use fault::{LineError, LineFault};
pub use generator::generated;
pub use lines::{cut, first_line};
pub use reading::read_line;
pub use verb::Verb;
