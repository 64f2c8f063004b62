//! What is known of a group of tabs, read from payloads and written to them.
ghost use Rattle.std.specs.Prelude.{◌≡◌, ◌*◌, ◌%◌, ◌≤◌, length, IfOk};
ghost use Rattle.navigation_entry.specs.Layouts.{group_size};

use pickle_cells::{Blob, Text16};
use std::alloc::{AllocError, Global};

/// A group of tabs: its two numbers, title and colour. It owns its title; its payload has at most 65,534 bytes, and
/// `rest`, what follows the colour there, is a multiple of 4 bytes.
#[derive(Debug, PartialEq, Eq, Drop)]
pub struct GroupInfo {
    pub high: u64,
    pub low: u64,
    pub title: Text16,
    pub colour: u32,
    pub rest: Blob,
    pub ghost whole: { length rest % 4 ≡ 0 },
    pub ghost short: { group_size (2 * length title) (length rest) ≤ 65534 },
}

impl GroupInfo {
    /// The same group. It makes one allocation for the title and one for the rest.
    pub fn copy(&self) -> Result<GroupInfo, AllocError>
        ensures { IfOk result (λ g. g ≡ self.now) }
    {
        let title = self.title.copy()?;
        let rest = self.rest.copy()?;
        Ok(GroupInfo {
            high: self.high,
            low: self.low,
            title,
            colour: self.colour,
            rest,
        })
    }
}

/// A group as it stands in the payload that it borrows. `title` holds two bytes a unit, little-endian.
#[derive(Clone, Copy, Debug)]
pub struct GroupRef<'a> {
    pub high: u64,
    pub low: u64,
    pub title: &'a [u8],
    pub colour: u32,
    pub rest: &'a [u8],
    pub ghost even: { length title.now % 2 ≡ 0 },
    pub ghost whole: { length rest.now % 4 ≡ 0 },
    pub ghost short: { group_size (length title.now) (length rest.now) ≤ 65534 },
}

impl<'a> GroupRef<'a> {
    ghost use Rattle.navigation_entry.specs.GroupViews.{ShowsGroup};

    /// The same group. It makes one allocation for the title and one for the rest.
    pub fn own(&self, alloc: Global) -> Result<GroupInfo, AllocError>
        ensures { IfOk result (λ g. ShowsGroup self.now g) }
    {
        let title = Text16::from_pairs(alloc, self.title)?;
        let rest = Blob::from_slice(alloc, self.rest)?;
        Ok(GroupInfo {
            high: self.high,
            low: self.low,
            title,
            colour: self.colour,
            rest,
        })
    }
}
