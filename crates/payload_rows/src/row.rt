//! The fields of a payload where they stand in a command, and how they are written.
ghost use Rattle.std.specs.Prelude.{◌≡◌, ◌<◌, ◌^◌, ◌++◌, ℕ, get_or, IfOk, OnOk, OnErr};
ghost use Rattle.payload_rows.specs.Contents.{content, FitsBounds, content_bytes, FitsContent, IsWholeContent, Owns};

use crate::fields::Fields;
use crate::window_entry::WindowEntry;
use crate::{fixed_write, pickled_write};
use navigation_entry::{Bounds, GroupInfo, Navigation};
use pickle_cells::Blob;
use std::alloc::AllocError;

/// What a payload says, borrowed from its command: the values of a `Shape` in the order in which they stand, or bytes
/// as they are.
#[derive(Clone, Copy)]
pub enum RowRef<'a> {
    Flag(bool),
    Int(i32),
    TwoInts(i32, i32),
    ThreeInts(i32, i32, i32),
    IntFlag(i32, bool),
    IntTime(i32, i64),
    TwoIntsTime(i32, i32, i64),
    WindowBounds(i32, Bounds),
    TabGroup(i32, u64, u64, bool),
    IntRest(i32, &'a Blob),
    IntText(i32, &'a Blob, &'a Blob),
    IntTwoTexts(i32, &'a Blob, &'a Blob, &'a Blob),
    WindowEntry(WindowEntry, &'a Blob),
    Navigation(i32, i32, &'a Navigation),
    Group(&'a GroupInfo),
    Raw(&'a Blob),
}

impl<'a> RowRef<'a> {
    /// Appends the payload. A tail must have a multiple of 4 bytes, and the payload at most 65,534. After an `Err`
    /// `out` is as before. It grows `out` at most once; a closed window, a navigation and a group are first written to
    /// a buffer of their own.
    pub fn write(self, out: &mut Vec<u8>) -> Result<(), AllocError>
        requires { IsWholeContent (content self) }
        ensures ok { OnOk result (out.new.items ≡ out.old.items ++ content_bytes (content self.entry)) }
        ensures err { OnErr result (out.new.items ≡ out.old.items) }
    {
        match self {
            RowRef::Flag(flag) => fixed_write::put_flag(flag, out),
            RowRef::Int(a) => fixed_write::put_int(a, out),
            RowRef::TwoInts(a, b) => fixed_write::put_two_ints(a, b, out),
            RowRef::ThreeInts(a, b, c) => fixed_write::put_three_ints(a, b, c, out),
            RowRef::IntFlag(a, flag) => fixed_write::put_int_flag(a, flag, out),
            RowRef::IntTime(a, time) => fixed_write::put_int_time(a, time, out),
            RowRef::TwoIntsTime(a, b, time) => fixed_write::put_two_ints_time(a, b, time, out),
            RowRef::WindowBounds(a, bounds) => fixed_write::put_window_bounds(a, bounds, out),
            RowRef::TabGroup(a, high, low, flag) => fixed_write::put_tab_group(
                a, high, low, flag, out,
            ),
            RowRef::IntRest(a, rest) => pickled_write::put_int_rest(a, rest.as_slice(), out),
            RowRef::IntText(a, text, tail) => {
                pickled_write::put_int_text(a, text.as_slice(), tail.as_slice(), out)
            },
            RowRef::IntTwoTexts(a, first, second, tail) => pickled_write::put_int_two_texts(
                a,
                first.as_slice(),
                second.as_slice(),
                tail.as_slice(),
                out,
            ),
            RowRef::WindowEntry(entry, tail) => {
                pickled_write::put_window_entry(entry, tail.as_slice(), out)
            },
            RowRef::Navigation(a, b, page) => pickled_write::put_navigation(a, b, page, out),
            RowRef::Group(group) => pickled_write::put_group(group, out),
            RowRef::Raw(bytes) => out.extend_from_slice(bytes.as_slice()),
        }
    }

    /// The fields of their own, and `None` for bytes as they are. It makes an allocation for each byte string.
    pub fn own(self) -> Result<Option<Fields>, AllocError>
        ensures { IfOk result (λ found. Owns (content self.entry) found) }
    {
        match self {
            RowRef::Flag(flag) => Ok(Some(Fields::Flag(flag))),
            RowRef::Int(a) => Ok(Some(Fields::Int(a))),
            RowRef::TwoInts(a, b) => Ok(Some(Fields::TwoInts(a, b))),
            RowRef::ThreeInts(a, b, c) => Ok(Some(Fields::ThreeInts(a, b, c))),
            RowRef::IntFlag(a, flag) => Ok(Some(Fields::IntFlag(a, flag))),
            RowRef::IntTime(a, time) => Ok(Some(Fields::IntTime(a, time))),
            RowRef::TwoIntsTime(a, b, time) => Ok(Some(Fields::TwoIntsTime(a, b, time))),
            RowRef::WindowBounds(a, bounds) => Ok(Some(Fields::WindowBounds(a, bounds))),
            RowRef::TabGroup(a, high, low, flag) => Ok(Some(Fields::TabGroup(a, high, low, flag))),
            RowRef::IntRest(a, rest) => Ok(Some(Fields::IntRest(a, rest.copy()?))),
            RowRef::IntText(a, text, tail) => {
                let text = text.copy()?;
                Ok(Some(Fields::IntText(a, text, tail.copy()?)))
            }
            RowRef::IntTwoTexts(a, first, second, tail) => {
                let first = first.copy()?;
                let second = second.copy()?;
                Ok(Some(Fields::IntTwoTexts(a, first, second, tail.copy()?)))
            }
            RowRef::WindowEntry(entry, tail) => {
                Ok(Some(Fields::WindowEntry(entry, tail.copy()?)))
            }
            RowRef::Navigation(a, b, page) => Ok(Some(Fields::Navigation(a, b, page.copy()?))),
            RowRef::Group(group) => Ok(Some(Fields::Group(group.copy()?))),
            RowRef::Raw(_) => Ok(None),
        }
    }

    /// Changes nothing: the numbers of every row are in the ranges of their types.
    pub fn known_in_range(self)
        ensures { FitsContent (content self.entry) }
    {
        match self {
            RowRef::Flag(_) => {}
            RowRef::Int(_a) => {}
            RowRef::TwoInts(_a, _b) => {}
            RowRef::ThreeInts(_a, _b, _c) => {}
            RowRef::IntFlag(_a, _flag) => {}
            RowRef::IntTime(_a, _time) => {}
            RowRef::TwoIntsTime(_a, _b, _time) => {}
            RowRef::WindowBounds(_a, bounds) => known_bounds(bounds),
            RowRef::TabGroup(_a, _high, _low, _flag) => {}
            RowRef::IntRest(_a, _) => {}
            RowRef::IntText(_a, _, _) => {}
            RowRef::IntTwoTexts(_a, _, _, _) => {}
            RowRef::WindowEntry(entry, _) => {
                let (_window, _selected) = (entry.window, entry.selected);
                let (_count, _time) = (entry.count, entry.time);
                known_bounds(entry.bounds);
            }
            RowRef::Navigation(_a, _b, page) => {
                let _transition = page.transition;
                known_units(page.title.units());
            }
            RowRef::Group(group) => {
                let (_high, _low, _colour) = (group.high, group.low, group.colour);
                known_units(group.title.units());
            }
            RowRef::Raw(_) => {}
        }
    }
}

fn known_bounds(bounds: Bounds)
    ensures { FitsBounds bounds }
{
    let (_x, _y, _show) = (bounds.x, bounds.y, bounds.show);
    let (_width, _height) = (bounds.width, bounds.height);
}

fn known_units(units: &[u16])
    ensures { (i : ℕ) → get_or units.now i 0 < 2 ^ 16 }
{}
