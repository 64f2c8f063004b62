//! Payloads of commands by their shapes: how each shape is read and written, and why a payload isn't one of it. A
//! family of commands is a table over these shapes.
//!
//! ```
//! let payload = [1, 0, 0, 0, 2, 0, 0, 0];
//! let mut again = Vec::new(alloc);
//! match Fields::read(alloc, Shape::TwoInts, &payload)? {
//!     Some(Fields::TwoInts(window, tab)) => RowRef::TwoInts(window, tab).write(&mut again)?,
//!     _ => assert_eq!(rt; Shape::TwoInts.fault(&payload), None),
//! }
//! assert_eq!(rt; again.as_slice(), payload.as_slice());
//! ```
#![tactic(auto)]

mod fault;
mod fields;
mod fixed;
mod fixed_write;
mod kind;
mod pickled;
mod pickled_write;
mod refusal;
mod row;
mod shape;
mod window_entry;

pub use fault::PayloadFault;
pub use fields::Fields;
pub use kind::{FieldKind, Kinds};
pub use row::RowRef;
pub use shape::Shape;
pub use window_entry::WindowEntry;
