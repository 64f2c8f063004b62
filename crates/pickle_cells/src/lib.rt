//! Byte strings, texts of 16-bit units and the items of pickles, Chromium's format of values one after another
//! (base/pickle.h).
//!
//! ```
//! let mut writer = PickleWriter::new(alloc)?;
//! writer.put_int(7)?;
//! writer.put_bytes(b"ab")?;
//! let pickle = writer.finish();
//!
//! let mut cursor = Cursor::new(&pickle)?;
//! assert_eq!(rt; cursor.int()?, 7);
//! assert_eq!(rt; cursor.bytes()?, b"ab".as_slice());
//! ```
#![tactic(auto)]

mod blob;
mod cursor;
mod fault;
mod kind;
mod size;
mod text16;
mod writer;

pub use blob::Blob;
pub use cursor::Cursor;
pub use fault::PickleFault;
pub use kind::ItemKind;
pub use size::string_item_size;
pub use text16::Text16;
pub use writer::PickleWriter;
