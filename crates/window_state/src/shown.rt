//! The shown tabs of a state by their places, and the groups that they are in.
ghost use Rattle.std.specs.Prelude.{ℤ, ◌≡◌, ◌≤◌, ◌||◌, length, map, IfOk, OnOk};
ghost use Rattle.std.specs.List.{AllByRecursion};
ghost use Rattle.std.specs.BTreeMap.{insert_entry};
ghost use Rattle.std.specs.BTreeSet.{contains};
ghost use Rattle.std.specs.Map.{keys_of};
ghost use Rattle.std.specs.Map.Iter.{deref};
ghost use Rattle.navigation_entry.specs.declared.group.GroupInfo.{GroupInfo};
ghost use Rattle.window_state.specs.declared.group_id.GroupId.{GroupId};
ghost use Rattle.window_state.specs.Keys.{group_key, group_cmp};
ghost use Rattle.window_state.specs.Views.{shown_tabs, is_used, is_group, uses};
ghost use Rattle.window_state.specs.Shown.{place_order, first_in, last_in, tabs_in, entries_of, put_shown, FitsPlace};

use crate::group_id::GroupId;
use crate::rows::Rows;
use crate::tab::Tab;
use std::alloc::{AllocError, Global};
use std::collections::{BTreeMap, BTreeSet};

/// Where a shown tab stands: places are ordered by window, then by index, then by the tab's id.
#[derive(Clone, Copy, PartialEq, Eq, PartialOrd, Ord)]
pub(crate) struct Place {
    window: i32,
    index: i32,
    id: i32,
}

impl Place {
    // The least place of a window.
    fn first(window: i32) -> Place
        ensures { result ≡ first_in window }
    {
        Place {
            window,
            index: i32::MIN,
            id: i32::MIN,
        }
    }

    // The greatest place of a window.
    fn last(window: i32) -> Place
        ensures { result ≡ last_in window }
    {
        Place {
            window,
            index: i32::MAX,
            id: i32::MAX,
        }
    }
}

/// The tabs of a state that have a window and a page, by their places, and the tokens of their groups. It holds a
/// reference to each of these tabs.
#[derive(Drop)]
pub struct Shown<'a> {
    tabs: BTreeMap<Place, &'a Tab>,
    groups: BTreeSet<GroupId>,
}

impl<'a> Shown<'a> {
    /// The shown ones of these tabs. It makes O(t log t) comparisons for t tabs.
    pub fn of(alloc: Global, tabs: &'a Rows<Tab>) -> Result<Shown<'a>, AllocError>
        ensures tabs { IfOk result (λ s. (window : ℤ) → tabs_in window s ≡ shown_tabs window tabs.now) }
        ensures count { IfOk result (λ s. length s.tabs.entries ≤ length tabs.now) }
        ensures fits { IfOk result (λ s. AllByRecursion FitsPlace (keys_of s.tabs.entries)) }
        ensures groups { IfOk result
            (λ s. (group : GroupInfo) → contains group_cmp s.groups (group_key group) ≡ is_used tabs.now group) }
    {
        let mut shown = Shown {
            tabs: BTreeMap::new(alloc),
            groups: BTreeSet::new(alloc),
        };
        for tab in tabs.iter() {
            shown.add(tab)?;
        }
        Ok(shown)
    }

    // The tab is put in where it is shown.
    fn add(&mut self, tab: &'a Tab) -> Result<(), AllocError>
        ensures tabs { OnOk result
            (entries_of self.new.tabs.entries ≡ put_shown (entries_of self.old.tabs.entries) tab.now) }
        ensures fits { OnOk result
            (AllByRecursion FitsPlace (keys_of self.old.tabs.entries) →
            AllByRecursion FitsPlace (keys_of self.new.tabs.entries)) }
        ensures groups { OnOk result
            ((group : GroupInfo) →
            contains group_cmp self.new.groups (group_key group) ≡ contains group_cmp self.old.groups
            (group_key group) || uses group tab.now) }
    {
        let Some(window) = tab.window else {
            return Ok(());
        };
        if tab.pages.is_empty() {
            return Ok(());
        }
        let place = Place {
            window,
            index: tab.index,
            id: tab.info.id,
        };
        put_tab(&mut self.tabs, place, tab)?;
        put_group(&mut self.groups, tab.info.group)
    }

    /// The shown tabs of a window by index, then by id; none where no tab is shown in it, whether it stands or not. It
    /// makes O(log t) comparisons for t shown tabs, and takes time and memory in what it finds.
    pub fn in_window(&self, alloc: Global, window: i32) -> Result<Vec<&'a Tab>, AllocError>
        requires { AllByRecursion FitsPlace (keys_of self.now.tabs.entries) }
        ensures { IfOk result (λ v. map deref v.items ≡ tabs_in window self.now) }
    {
        let mut found = Vec::new(alloc);
        for (_, tab) in self.tabs.range(Place::first(window)..=Place::last(window)) {
            found.push(*tab)?;
        }
        Ok(found)
    }

    /// Whether a shown tab is in the group.
    pub(crate) fn uses(&self, group: GroupId) -> bool
        ensures { result ≡ contains group_cmp self.now.groups group }
    {
        self.groups.contains(&group)
    }
}

fn put_tab<'a>(
    tabs: &mut BTreeMap<Place, &'a Tab>,
    place: Place,
    tab: &'a Tab,
) -> Result<(), AllocError>
    ensures entries { OnOk result
        (entries_of tabs.new.entries ≡ insert_entry place_order (entries_of tabs.old.entries) place tab.now) }
    ensures fits { OnOk result
        (AllByRecursion FitsPlace (keys_of tabs.old.entries) → AllByRecursion FitsPlace (keys_of tabs.new.entries)) }
{
    tabs.insert(place, tab)?;
    Ok(())
}

fn put_group(groups: &mut BTreeSet<GroupId>, group: Option<GroupId>) -> Result<(), AllocError>
    ensures { OnOk result
        ((id : GroupId) → contains group_cmp groups.new id ≡ contains group_cmp groups.old id || is_group id group) }
{
    if let Some(group) = group {
        groups.insert(group)?;
    }
    Ok(())
}
