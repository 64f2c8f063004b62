//! Navigations, groups of tabs and bounds of windows, which both families of commands share, as the payloads in
//! which they stand.
//!
//! ```
//! let page = Navigation::fitted(
//!     Blob::from_slice(alloc, b"https://example.org/")?,
//!     Text16::from_text(alloc, "Example")?,
//!     Blob::from_slice(alloc, b"")?,
//!     0,
//!     Blob::from_slice(alloc, b"")?,
//! );
//! let payload = write_navigation(alloc, 2, 0, &page)?;
//! let read = read_navigation(&payload)?;
//! assert_eq!(rt; read.url, b"https://example.org/".as_slice());
//! ```
#![tactic(auto)]

mod bounds;
mod display;
mod fields;
mod group;
mod group_reading;
mod more;
mod navigation;
mod reading;
mod reference;

pub use bounds::Bounds;
pub use display::read_more;
pub use group::{GroupInfo, GroupRef};
pub use group_reading::{read_group, write_group};
pub use more::{InfoPair, More};
pub use navigation::Navigation;
pub use reading::{read_navigation, write_navigation};
pub use reference::NavigationRef;
