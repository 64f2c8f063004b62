//! Empty calls by which the code around learns that numbers are in the ranges of their types.
ghost use Rattle.window_state.specs.Changes.{edit_change, window_edit_change};
ghost use Rattle.window_state.specs.Ranges.{IsTabChangeInRange, IsWindowChangeInRange};

use crate::change::{TabChange, TabEdit, WindowChange, WindowEdit};
use tab_pages::ranges;

impl TabChange {
    pub(crate) fn known_in_range(&self)
        ensures { IsTabChangeInRange self.now }
    {
        match self {
            TabChange::Index(index) | TabChange::Current(index) | TabChange::PruneBack(index) => {
                let _index = *index;
            }
            TabChange::Page(index, navigation) => {
                let _index = *index;
                ranges::of_navigation(navigation);
            }
            TabChange::PruneFront(count) => {
                let _count = *count;
            }
            TabChange::Prune(index, count) => {
                let (_index, _count) = (*index, *count);
            }
            TabChange::Group(Some(group)) => {
                let (_high, _low) = (group.high, group.low);
            }
            TabChange::LastActive(time) => {
                let _time = *time;
            }
            _ => {}
        }
    }
}

impl TabEdit {
    pub(crate) fn known_in_range(&self)
        ensures { IsTabChangeInRange (edit_change self.now) }
    {
        match self {
            TabEdit::Index(index) | TabEdit::Current(index) | TabEdit::PruneBack(index) => {
                let _index = *index;
            }
            TabEdit::PruneFront(count) => {
                let _count = *count;
            }
            TabEdit::Group(Some(group)) => {
                let (_high, _low) = (group.high, group.low);
            }
            TabEdit::LastActive(time) => {
                let _time = *time;
            }
            _ => {}
        }
    }
}

impl WindowChange {
    pub(crate) fn known_in_range(&self)
        ensures { IsWindowChangeInRange self.now }
    {
        match self {
            WindowChange::Selected(index) => {
                let _index = *index;
            }
            WindowChange::Kind(kind) => {
                let _kind = *kind;
            }
            WindowChange::Bounded(bounds) => ranges::of_bounds(bounds),
            _ => {}
        }
    }
}

impl WindowEdit {
    pub(crate) fn known_in_range(&self)
        ensures { IsWindowChangeInRange (window_edit_change self.now) }
    {
        match self {
            WindowEdit::Selected(index) => {
                let _index = *index;
            }
            WindowEdit::Bounded(bounds) => ranges::of_bounds(bounds),
        }
    }
}
