//! The fields of a payload, read by its shape.
ghost use Rattle.std.specs.Prelude.{◌≤◌, length, IfOk};
ghost use Rattle.payload_rows.specs.Contents.{IsRead};

use crate::shape::Shape;
use crate::window_entry::WindowEntry;
use crate::{fixed, pickled};
use navigation_entry::{Bounds, GroupInfo, Navigation};
use pickle_cells::Blob;
use std::alloc::{AllocError, Global};

/// The values of a payload by its `Shape`, in the order in which they stand. It owns its texts; what follows the last
/// named value, a tail or rest, comes last.
#[derive(Drop)]
pub enum Fields {
    Flag(bool),
    Int(i32),
    TwoInts(i32, i32),
    ThreeInts(i32, i32, i32),
    IntFlag(i32, bool),
    IntTime(i32, i64),
    TwoIntsTime(i32, i32, i64),
    WindowBounds(i32, Bounds),
    TabGroup(i32, u64, u64, bool),
    IntRest(i32, Blob),
    IntText(i32, Blob, Blob),
    IntTwoTexts(i32, Blob, Blob, Blob),
    WindowEntry(WindowEntry, Blob),
    Navigation(i32, i32, Navigation),
    Group(GroupInfo),
}

impl Fields {
    /// The fields of a payload of the shape, `None` exactly where a test of the shape fails. It makes an allocation
    /// for each byte string that it keeps, and none for a payload of fixed length.
    pub fn read(alloc: Global, shape: Shape, payload: &[u8]) -> Result<Option<Fields>, AllocError>
        requires { length payload.now ≤ 65534 }
        ensures { IfOk result (λ found. IsRead shape payload.now found) }
    {
        match shape {
            Shape::Flag => Ok(fixed::flag(payload)),
            Shape::Int => Ok(fixed::int(payload)),
            Shape::TwoInts => Ok(fixed::two_ints(payload)),
            Shape::ThreeInts => Ok(fixed::three_ints(payload)),
            Shape::IntFlag => Ok(fixed::int_flag(payload)),
            Shape::IntTime => Ok(fixed::int_time(payload)),
            Shape::TwoIntsTime => Ok(fixed::two_ints_time(payload)),
            Shape::WindowBounds => Ok(fixed::window_bounds(payload)),
            Shape::TabGroup => Ok(fixed::tab_group(payload)),
            Shape::IntRest => pickled::int_rest(alloc, payload),
            Shape::IntText => pickled::int_text(alloc, payload),
            Shape::IntTwoTexts => pickled::int_two_texts(alloc, payload),
            Shape::WindowEntry => pickled::window_entry(alloc, payload),
            Shape::Navigation => pickled::navigation(alloc, payload),
            Shape::Group => pickled::group(alloc, payload),
        }
    }
}
