//! A script run over journals that are open: its lines are read and acted on by a browser, what that issues goes to the
//! journals, and the lines of the run are written.
//!
//! ```
//! let limits = Limits {
//!     every: 250,
//!     max_file: 1 << 20,
//! };
//! let mut clock = FixedClock::new(100);
//! let disk = MemoryDisk::empty(alloc)?;
//! let session = open_journal::<SessionMachine, _, _>(alloc, Family::Session, disk, &mut clock, limits);
//! let disk = MemoryDisk::empty(alloc)?;
//! let tabs = open_journal::<TabsMachine, _, _>(alloc, Family::Tabs, disk, &mut clock, limits);
//! if let (Ok(session), Ok(tabs)) = (session, tabs) {
//!     let writers = Writers { session, tabs };
//!     let mut out = MemorySink::new(alloc, &[])?;
//!     let text = b"tab 1 2\nsync\nfly 3\n";
//!     let (_, ran) = run_script(alloc, writers, &mut out, &mut clock, text);
//!     assert_eq!(rt; ran, Ok(Some((3, Why::Line(LineFault::UnknownVerb)))));
//!     assert_eq!(rt; out.written(), b"start 0 0 0\nsync 2 0\n".as_slice());
//! }
//! ```
#![tactic(auto)]

mod acting;
mod asking;
mod halt;
mod handling;
mod inline;
mod lines;
mod run_state;
mod running;
mod segments;
mod starting;
mod syncing;

pub use acting::{Unasked, act_on};
pub use asking::{Asked, Work};
pub use halt::Halt;
pub use inline::write_inline;
pub use lines::{Next, go_on};
pub use run_state::RunState;
pub use running::run_script;
pub use segments::Ended;
pub use starting::start;
