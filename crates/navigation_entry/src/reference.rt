//! A navigation as it stands in the bytes of a payload.
ghost use Rattle.std.specs.Prelude.{◌≡◌, ◌%◌, ◌≤◌, length, IfOk};
ghost use Rattle.navigation_entry.specs.Layouts.{navigation_size};

use crate::navigation::Navigation;
use pickle_cells::{Blob, Text16};
use std::alloc::{AllocError, Global};

/// A navigation of a tab at an index, which borrows the payload that it was read from. `title` holds two bytes a
/// unit, little-endian. Its payload has at most 65,534 bytes, and `rest` a multiple of 4.
#[derive(Clone, Copy, Debug)]
pub struct NavigationRef<'a> {
    pub tab: i32,
    pub index: i32,
    pub url: &'a [u8],
    pub title: &'a [u8],
    pub page_state: &'a [u8],
    pub transition: i32,
    pub rest: &'a [u8],
    pub ghost even: { length title.now % 2 ≡ 0 },
    pub ghost whole: { length rest.now % 4 ≡ 0 },
    pub ghost short: { navigation_size (length url.now) (length title.now) (length page_state.now) (length rest.now) ≤ 65534 },
}

impl<'a> NavigationRef<'a> {
    ghost use Rattle.navigation_entry.specs.Views.{Shows};

    /// The same navigation without its tab and index. It makes one allocation a text.
    pub fn own(&self, alloc: Global) -> Result<Navigation, AllocError>
        ensures { IfOk result (λ n. Shows self.now n) }
    {
        let url = Blob::from_slice(alloc, self.url)?;
        let title = Text16::from_pairs(alloc, self.title)?;
        let page_state = Blob::from_slice(alloc, self.page_state)?;
        let rest = Blob::from_slice(alloc, self.rest)?;
        Ok(Navigation {
            url,
            title,
            page_state,
            transition: self.transition,
            rest,
        })
    }
}
