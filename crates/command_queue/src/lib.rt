//! What stands between an issuer and a writer on two threads: a bounded queue of items, which come out in the order in
//! which they were put, each once, and a board of numbers that the writer raises and the issuer looks at.
//!
//! Passes and seats say who may do what; each goes with its thread, and both come back at the end:
//!
//! ```
//! let (queue, issuer, writer) = CommandQueue::new(alloc, 2)?;
//! let issuer = queue.put(&rt, issuer, 7u8);
//! let issuer = queue.put(&rt, issuer, 8);
//! let (writer, item) = queue.take(&rt, writer);
//! let mut left = queue.close(issuer, writer);
//! assert_eq!(rt; (item, left.next(&rt), left.next(&rt)), (7, Some(8), None));
//! let (board, mut writer, mut issuer) = AckBoard::new(alloc)?;
//! board.post(&mut writer, Word::Session, 3);
//! assert_eq!(rt; board.seen(&mut issuer, Word::Session), 3);
//! let posted = board.close(writer, issuer);
//! assert_eq!(rt; (posted.session, posted.tabs, posted.ended), (3, 0, 0));
//! ```
#![tactic(auto)]

pub mod board;
pub mod board_rule;
pub mod queue;
pub mod queue_rule;

pub use board::{AckBoard, IssuerSeat, Posted, Word, WriterSeat};
pub use queue::{CommandQueue, IssuerPass, Leftover, WriterPass};
