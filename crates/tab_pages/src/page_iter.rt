//! The walk over the pages of a tab.
ghost use Rattle.std.specs.Prelude.{◌≡◌};
ghost use Rattle.std.specs.Iterator.{YieldsFirstBy, item_count};
ghost use Rattle.tab_pages.specs.PartLists.{joined, page_shown};

use crate::part::Part;
use crate::parts;
use navigation_entry::Navigation;
use std::marker::Model;

/// Pages by rising index, each behind its index: those that are left.
#[derive(Drop)]
pub struct PageIter<'a> {
    parts: &'a [Part],
    place: usize,
}

impl<'a> Model for PageIter<'a> {
    ghost use Rattle.std.specs.Prelude.{ℤ, List, drop};
    ghost use Rattle.navigation_entry.specs.declared.navigation.Navigation.{Navigation};
    ghost use Rattle.tab_pages.specs.PartLists.{joined};

    ghost Value = { List (ℤ × Navigation) };

    ghost view = { λ i. drop i.place (joined i.parts.now) };
}

impl<'a> PageIter<'a> {
    pub(crate) fn new(parts: &'a [Part]) -> PageIter<'a>
        ensures { result ≡ joined parts.now }
    {
        PageIter { parts, place: 0 }
    }
}

impl<'a> Iterator for PageIter<'a> {
    type Item = (i32, &'a Navigation);

    ghost next_gives = { YieldsFirstBy page_shown (λ pages. pages) };

    ghost remaining = { item_count (λ pages. pages) };

    fn next(&mut self) -> Option<(i32, &'a Navigation)> {
        let (parts, place) = parts::seek(self.parts, self.place);
        self.parts = parts;
        self.place = place;
        let part = parts.first()?;
        // The place is below it, so that the next one fits.
        let _count = part.len();
        self.place += 1;
        Some(part.at(place))
    }
}
