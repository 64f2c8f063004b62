//! A part of a tab's pages.
ghost use Rattle.std.specs.Prelude.{ℤ, pos, ◌≡◌, ◌<◌, ◌≤ℤ◌, ◌<ℤ◌, [], ◌++◌, length, map, slice_get, Some, IfOk, OnOk, OnErr};
ghost use Rattle.std.specs.Ordering.{int_cmp};
ghost use Rattle.std.specs.BTreeMap.{insert_entry};
ghost use Rattle.tab_pages.specs.PageLists.{has_page, prune_back, pruned};
ghost use Rattle.tab_pages.specs.PartLists.{all_before, begins_by, AreLow};

use crate::page_vec;
use crate::page_vec::Page;
use navigation_entry::Navigation;
use std::alloc::{AllocError, Global};
use std::marker::Model;

/// Some pages of a tab, by rising index. What is stored of an index is higher than the index by `fall`, so that all
/// indices of a part fall in one step; a change of its pages first takes the fall off each.
#[derive(Drop)]
pub(crate) struct Part {
    fall: i32,
    pages: Vec<Page>,
}

impl Model for Part {
    ghost use Rattle.std.specs.Prelude.{ℤ, pos, ◌≤ℤ◌, List, map};
    ghost use Rattle.navigation_entry.specs.declared.navigation.Navigation.{Navigation};
    ghost use Rattle.tab_pages.specs.PageLists.{IsRising, shifted};

    ghost Value = { List (ℤ × Navigation) };

    ghost view = { λ p. map (shifted p.fall) p.pages.items };

    ghost invariant = { λ p. (pos 0 ≤ℤ p.fall) × IsRising p.fall p.pages.items };
}

impl Part {
    pub(crate) fn new(alloc: Global) -> Part
        ensures { result ≡ [] }
    {
        Part {
            fall: 0,
            pages: Vec::new(alloc),
        }
    }

    pub(crate) fn len(&self) -> usize
        ensures length { result ≡ length self.now }
        ensures low { AreLow self.now }
    {
        match self.pages.last() {
            // No index is higher than its.
            Some(last) => {
                let _index = last.0;
                self.pages.len()
            }
            None => 0,
        }
    }

    pub(crate) fn has_page(&self) -> bool
        ensures { result ≡ has_page self.now }
    {
        self.pages.len() > 0
    }

    /// The page at a place, with its index.
    pub(crate) fn at(&self, place: usize) -> (i32, &Navigation)
        requires { place < length self.now }
        ensures { slice_get self.now place ≡ Some (result.0, result.1.now) }
    {
        let page = &self.pages[place];
        (page_vec::fallen(page.0, self.fall), &page.1)
    }

    /// Whether all pages stand before the index.
    pub(crate) fn ends_before(&self, index: i32) -> bool
        ensures { result ≡ all_before index self.now }
    {
        page_vec::ends_before(self.pages.as_slice(), self.fall, index)
    }

    /// Whether there is a page, and the first one stands no later than at the index.
    pub(crate) fn begins_by(&self, index: i32) -> bool
        ensures { result ≡ begins_by index self.now }
    {
        page_vec::begins_by(self.pages.as_slice(), self.fall, index)
    }

    /// How many pages stand before the index.
    pub(crate) fn count_before(&self, index: i32) -> usize
        ensures { result ≡ length (prune_back index self.now) }
    {
        page_vec::count_before(self.pages.as_slice(), self.fall, index)
    }

    /// The page at the index, replaced or put in by its index.
    pub(crate) fn put(&mut self, index: i32, navigation: Navigation) -> Result<(), AllocError>
        requires { pos 0 ≤ℤ index }
        ensures ok { OnOk result (self.new ≡ insert_entry int_cmp self.old index navigation) }
        ensures err { OnErr result (self.new ≡ self.old) }
    {
        page_vec::apply_fall(&mut self.pages, self.fall);
        self.fall = 0;
        page_vec::put(&mut self.pages, index, navigation)
    }

    /// The later half of the pages leaves this part.
    pub(crate) fn split(&mut self) -> Result<Part, AllocError>
        ensures ok { IfOk result (λ later. self.old ≡ self.new ++ later) }
        ensures err { OnErr result (self.new ≡ self.old) }
    {
        page_vec::apply_fall(&mut self.pages, self.fall);
        self.fall = 0;
        let pages = self.pages.split_off(self.pages.len() / 2)?;
        Ok(Part { fall: 0, pages })
    }

    /// Pages from the index on go.
    pub(crate) fn prune_back(&mut self, index: i32)
        ensures { self.new ≡ prune_back index self.old }
    {
        if page_vec::ends_before(self.pages.as_slice(), self.fall, index) {
            return;
        }
        page_vec::apply_fall(&mut self.pages, self.fall);
        self.fall = 0;
        page_vec::prune_back(&mut self.pages, index);
    }

    /// So many indices from the first on go, and later ones fall by the count.
    pub(crate) fn prune(&mut self, first: i32, count: i32)
        requires first { pos 0 ≤ℤ first }
        requires count { pos 0 <ℤ count }
        ensures { self.new ≡ pruned first count self.old }
    {
        if page_vec::ends_before(self.pages.as_slice(), self.fall, first) {
            return;
        }
        if page_vec::is_behind(self.pages.as_slice(), self.fall, first, count) {
            self.fall += count;
            return;
        }
        page_vec::apply_fall(&mut self.pages, self.fall);
        self.fall = 0;
        page_vec::prune(&mut self.pages, first, count);
    }

    /// The pages without their indices are added to others.
    pub(crate) fn push_navigations(
        &self,
        navigations: &mut Vec<Navigation>,
    ) -> Result<(), AllocError>
        ensures { OnOk result
            (navigations.new.items ≡ navigations.old.items ++ map (λ page. page.1) self.now) }
    {
        page_vec::push_navigations(self.pages.as_slice(), navigations)
    }

    pub(crate) fn copy(&self) -> Result<Part, AllocError>
        ensures { IfOk result (λ p. p ≡ self.now) }
    {
        let pages = page_vec::copy(*self.pages.allocator(), self.pages.as_slice())?;
        Ok(Part {
            fall: self.fall,
            pages,
        })
    }
}
