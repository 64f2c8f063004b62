//! Where a window stands.

/// A window's place and size on the screen, in pixels, and its state (`show`), as they stand in both families.
#[derive(Clone, Copy, Debug, PartialEq, Eq)]
pub struct Bounds {
    pub x: i32,
    pub y: i32,
    pub width: i32,
    pub height: i32,
    pub show: i32,
}
