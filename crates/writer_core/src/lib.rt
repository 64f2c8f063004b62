//! What is to be done to the journals of both families, item by item: commands are written, both are synced or
//! compacted, and the first refusal names its family.
//!
//! Journals of the machine `M` for both families are opened, compacted and synced so:
//!
//! ```
//! let limits = Limits {
//!     every: 250,
//!     max_file: 1 << 20,
//! };
//! let mut clock = FixedClock::new(100);
//! let disk = MemoryDisk::empty(alloc)?;
//! let session = open_journal::<M, _, _>(alloc, Family::Session, disk, &mut clock, limits);
//! let disk = MemoryDisk::empty(alloc)?;
//! let tabs = open_journal::<M, _, _>(alloc, Family::Tabs, disk, &mut clock, limits);
//! if let (Ok(session), Ok(tabs)) = (session, tabs) {
//!     let mut writers = Writers { session, tabs };
//!     let compacted = handle(&mut writers, &mut clock, Item::Compact);
//!     let synced = handle(&mut writers, &mut clock, Item::Sync);
//!     assert_eq!(rt; (compacted, synced), (Ok(()), Ok(())));
//! }
//! ```
#![tactic(auto)]

mod handling;
mod in_order;
mod item;
mod opening;
mod queue_item;
mod serving;
mod working;

pub use handling::{Stopped, Writers, handle};
pub use in_order::{handle_session, handle_tabs};
pub use item::{Item, Job, jobs};
pub use opening::open_journal;
pub use queue_item::QueueItem;
pub use serving::{Report, serve, worker};
pub use working::work;
