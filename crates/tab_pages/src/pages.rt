//! The pages of a tab.
ghost use Rattle.std.specs.Prelude.{ℤ, ◌≡◌, ◌<◌, ◌≤ℤ◌, ◌↔◌, pos, [], length, map, slice_get, Some, IsTrue, IfOk, OnOk, OnErr};
ghost use Rattle.std.specs.Ordering.{int_cmp};
ghost use Rattle.std.specs.BTreeMap.{insert_entry};
ghost use Rattle.tab_pages.specs.PageLists.{IsRising, prune, prune_back, prune_front};
ghost use Rattle.tab_pages.specs.Positions.{first_from};

use crate::page_iter::PageIter;
use crate::part::Part;
use crate::parts;
use navigation_entry::Navigation;
use std::alloc::{AllocError, Global};
use std::marker::Model;

/// Pages by rising index, none negative. They stand in parts, and a part is full where it has 256 pages and one for
/// each part. A put, a pruning, the number of pages and a look-up look at each part and at the pages of few, so after n
/// puts they take time in the square root of n, and a pruning also in the number of pages that go. A put behind all
/// other pages takes constant time in the mean, and a pruning that begins behind them constant time.
#[derive(Drop)]
pub struct Pages {
    parts: Vec<Part>,
}

impl Model for Pages {
    ghost use Rattle.std.specs.Prelude.{ℤ, pos, List};
    ghost use Rattle.navigation_entry.specs.declared.navigation.Navigation.{Navigation};
    ghost use Rattle.tab_pages.specs.PageLists.{IsRising};
    ghost use Rattle.tab_pages.specs.PartLists.{joined};

    ghost Value = { List (ℤ × Navigation) };

    ghost view = { λ p. joined p.parts.items };

    ghost invariant = { λ p. IsRising (pos 0) (joined p.parts.items) };
}

impl Pages {
    /// No pages. It takes no memory.
    pub fn new(alloc: Global) -> Pages
        ensures { result ≡ [] }
    {
        Pages {
            parts: Vec::new(alloc),
        }
    }

    pub fn len(&self) -> usize
        ensures length { result ≡ length self.now }
        ensures rising { IsRising (pos 0) self.now }
    {
        parts::count(self.parts.as_slice())
    }

    pub fn is_empty(&self) -> bool
        ensures { IsTrue result ↔ (self.now ≡ []) }
    {
        self.len() == 0
    }

    /// The pages by rising index, each behind its index. It takes no memory, and constant time a page in the mean.
    pub fn iter(&self) -> PageIter<'_>
        ensures { result ≡ self.now }
    {
        PageIter::new(self.parts.as_slice())
    }

    /// The page at a place, with its index.
    pub fn at(&self, place: usize) -> (i32, &Navigation)
        requires { place < length self.now }
        ensures { slice_get self.now place ≡ Some (result.0, result.1.now) }
    {
        parts::at(self.parts.as_slice(), place)
    }

    /// The position of the first page whose index is at least this, else the last position; 0 where there are none.
    pub fn first_from(&self, index: i32) -> u32
        ensures { result ≡ first_from index (map (λ page. page.0) self.now) }
    {
        parts::first_from(self.parts.as_slice(), index)
    }

    /// The pages without their indices, in memory of their own.
    pub fn navigations(&self) -> Result<Vec<Navigation>, AllocError>
        ensures { IfOk result (λ v. v.items ≡ map (λ page. page.1) self.now) }
    {
        parts::navigations(*self.parts.allocator(), self.parts.as_slice())
    }

    /// The page at the index is replaced, or put in by its index.
    pub fn put(&mut self, index: i32, navigation: Navigation) -> Result<(), AllocError>
        requires { pos 0 ≤ℤ index }
        ensures ok { OnOk result (self.new ≡ insert_entry int_cmp self.old index navigation) }
        ensures err { OnErr result (self.new ≡ self.old) }
    {
        parts::put(&mut self.parts, index, navigation)
    }

    /// Pages from this index on go. It takes no memory.
    pub fn prune_back(&mut self, index: i32)
        ensures { self.new ≡ prune_back index self.old }
    {
        parts::prune_back(&mut self.parts, index);
    }

    /// Each index falls by a positive count, and those that become negative go. It takes no memory.
    pub fn prune_front(&mut self, count: i32)
        ensures { self.new ≡ prune_front count self.old }
    {
        if count > 0 {
            parts::prune(&mut self.parts, 0, count);
        }
    }

    /// So many indices from this one on go, a positive count from one that isn't negative, and later ones fall by
    /// the count. It takes no memory.
    pub fn prune(&mut self, index: i32, count: i32)
        ensures { self.new ≡ prune index count self.old }
    {
        if index < 0 {
            return;
        }
        if count > 0 {
            parts::prune(&mut self.parts, index, count);
        }
    }

    /// The same pages, in memory of their own.
    pub fn copy(&self) -> Result<Pages, AllocError>
        ensures { IfOk result (λ p. p ≡ self.now) }
    {
        let parts = parts::copy(*self.parts.allocator(), self.parts.as_slice())?;
        Ok(Pages { parts })
    }
}
