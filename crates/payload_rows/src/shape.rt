//! The shapes of payloads.
ghost use Rattle.std.specs.Prelude.{◌≡◌, ◌≤◌, length, Some};
ghost use Rattle.payload_rows.specs.Shapes.{fields_of, seen, AreFew};
ghost use Rattle.payload_rows.specs.Faults.{shape_fault};

use crate::fault::PayloadFault;
use crate::kind::{FieldKind, Kinds};
use crate::refusal;
use pickle_cells::ItemKind;

/// Which fields a payload has, without their values. The first nine are of fixed length, the others are pickles.
#[derive(Clone, Copy)]
pub enum Shape {
    /// A flag, in 1 byte.
    Flag,
    /// A signed number, in 4 bytes.
    Int,
    /// Two signed numbers, in 8 bytes.
    TwoInts,
    /// Three signed numbers, in 12 bytes.
    ThreeInts,
    /// A signed number and a flag, in 8 bytes.
    IntFlag,
    /// A signed number and a time, in 16 bytes.
    IntTime,
    /// Two signed numbers and a time, in 16 bytes.
    TwoIntsTime,
    /// A window and its bounds, in 24 bytes.
    WindowBounds,
    /// A tab, the two numbers of its group's token, and a flag, in 32 bytes.
    TabGroup,
    /// A number and what follows it.
    IntRest,
    /// A number, a string and a tail.
    IntText,
    /// A number, two strings and a tail.
    IntTwoTexts,
    /// What is known of a closed window, and a tail.
    WindowEntry,
    /// A navigation of a tab at an index.
    Navigation,
    /// What is known of a group of tabs.
    Group,
}

impl Shape {
    /// The kinds of the fields in their order. It takes no memory.
    pub fn kinds(self) -> Kinds
        ensures seen { seen result ≡ fields_of self }
        ensures few { AreFew result }
    {
        use FieldKind::{Flag, Free, Int, Int64, Uint64};
        match self {
            Shape::Flag => Kinds::Fixed(&[Flag]),
            Shape::Int => Kinds::Fixed(&[Int]),
            Shape::TwoInts => Kinds::Fixed(&[Int, Int]),
            Shape::ThreeInts => Kinds::Fixed(&[Int, Int, Int]),
            Shape::IntFlag => Kinds::Fixed(&[Int, Flag, Free(3)]),
            Shape::IntTime => Kinds::Fixed(&[Int, Free(4), Int64]),
            Shape::TwoIntsTime => Kinds::Fixed(&[Int, Int, Int64]),
            Shape::WindowBounds => Kinds::Fixed(&[Int, Int, Int, Int, Int, Int]),
            Shape::TabGroup => Kinds::Fixed(&[Int, Free(4), Uint64, Uint64, Flag, Free(7)]),
            Shape::IntRest => Kinds::Pickled(&[ItemKind::Int]),
            Shape::IntText => Kinds::Pickled(&[ItemKind::Int, ItemKind::Text]),
            Shape::IntTwoTexts => Kinds::Pickled(&[ItemKind::Int, ItemKind::Text, ItemKind::Text]),
            Shape::WindowEntry => Kinds::Pickled(&[
                ItemKind::Int,
                ItemKind::Int,
                ItemKind::Int,
                ItemKind::Int64,
                ItemKind::Int,
                ItemKind::Int,
                ItemKind::Int,
                ItemKind::Int,
                ItemKind::Int,
            ]),
            Shape::Navigation => Kinds::Pickled(&[
                ItemKind::Int,
                ItemKind::Int,
                ItemKind::Text,
                ItemKind::Units,
                ItemKind::Text,
                ItemKind::Int,
            ]),
            Shape::Group => Kinds::Pickled(&[
                ItemKind::Uint64,
                ItemKind::Uint64,
                ItemKind::Units,
                ItemKind::Uint32,
            ]),
        }
    }

    /// The first test of the shape that a payload fails, and `None` exactly where it fails none. It takes no memory,
    /// and touches each byte at most once.
    pub fn fault(self, payload: &[u8]) -> Option<PayloadFault>
        requires { length payload.now ≤ 65534 }
        ensures { result ≡ shape_fault (Some (fields_of self)) payload.now }
    {
        match self.kinds() {
            Kinds::Fixed(kinds) => refusal::of_fixed(kinds, payload),
            Kinds::Pickled(kinds) => refusal::of_pickled(kinds, payload),
        }
    }
}
