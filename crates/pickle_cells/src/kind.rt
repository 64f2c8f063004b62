//! The kinds of items, for code that walks a pickle by a list of them.

/// An item of a pickle without its value.
#[derive(Clone, Copy)]
pub enum ItemKind {
    /// A signed number of 4 bytes.
    Int,
    /// A signed number of 8 bytes.
    Int64,
    /// A number of 4 bytes.
    Uint32,
    /// A number of 8 bytes.
    Uint64,
    /// A truth value, in 4 bytes.
    Flag,
    /// A string.
    Text,
    /// A string of 16-bit units.
    Units,
}
