//! A script run over journals that a second thread writes: the lines of a segment are acted on here, and what they ask
//! of the journals goes to the writer through a queue.
//!
//! ```
//! let limits = Limits {
//!     every: 250,
//!     max_file: 1 << 20,
//! };
//! let mut clock = FixedClock::new(100);
//! let disk = MemoryDisk::empty(alloc)?;
//! let session = open_journal::<SessionMachine, _, _>(alloc, Family::Session, disk, &mut clock, limits);
//! let disk = MemoryDisk::empty(alloc)?;
//! let tabs = open_journal::<TabsMachine, _, _>(alloc, Family::Tabs, disk, &mut clock, limits);
//! if let (Ok(session), Ok(tabs)) = (session, tabs) {
//!     let writers = Writers { session, tabs };
//!     let mut out = MemorySink::new(alloc, &[])?;
//!     let text = b"tab 1 2\nsync\ntab 1 3\n";
//!     let (writers, ran) = run_script_beside(
//!         &rt, alloc, &NoGate, writers, &mut out, &mut clock, text,
//!     );
//!     assert_eq!(rt; (ran, writers.session.told()), (Ok(None), 4));
//!     assert_eq!(rt; out.written(), b"start 0 0 0\nsync 2 0\n".as_slice());
//! }
//! ```
#![tactic(auto)]

mod beside;
mod gate;
mod issuing;
mod putting;
mod running;
mod threaded;

pub use gate::{Gate, NoGate};
pub use running::run_script_beside;
