//! The kinds of fields, for code that walks a payload field by field.

use pickle_cells::ItemKind;

/// A field of a payload of fixed length, without its value.
#[derive(Clone, Copy)]
pub enum FieldKind {
    /// A signed number of 4 bytes.
    Int,
    /// A signed number of 8 bytes.
    Int64,
    /// A number of 8 bytes.
    Uint64,
    /// A truth value, in one byte.
    Flag,
    /// So many bytes that say nothing.
    Free(u8),
}

/// The kinds of a payload's fields, in their order.
#[derive(Clone, Copy)]
pub enum Kinds {
    /// Fields of fixed length.
    Fixed(&'static [FieldKind]),
    /// The items of a pickle, behind which a tail may follow.
    Pickled(&'static [ItemKind]),
}
