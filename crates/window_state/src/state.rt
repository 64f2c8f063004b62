//! The state of a session.
ghost use Rattle.std.specs.Prelude.{◌≡◌, ℤ, true, false, Some, None, is_some, not, filter, IfOk, OnOk, OnErr};
ghost use Rattle.std.specs.Ordering.{int_cmp};
ghost use Rattle.window_state.specs.RowLists.{find_row, step_row};
ghost use Rattle.window_state.specs.Keys.{tab_key, window_key};
ghost use Rattle.window_state.specs.Changes.{new_tab, new_window};
ghost use Rattle.window_state.specs.States.{is_in, stands};
ghost use Rattle.window_state.specs.Members.{window_of, AreMembers};

use crate::change::{TabChange, TabEdit, TabStep, WindowChange, WindowEdit};
use crate::members::Members;
use crate::rows::Rows;
use crate::tab::Tab;
use crate::window::Window;
use navigation_entry::GroupInfo;
use std::alloc::{AllocError, Global};
use std::marker::Model;
use tab_pages::ranges;

/// Tabs and windows by rising id, groups of tabs by rising token, and the active window, which need not stand. At
/// most 1,048,576 tabs and as many windows; a tab's window stands, and every text fits the payload of its command.
///
/// A change of one tab, window or group takes time in the logarithm of their numbers, beside what `Pages` says of a
/// change of pages. A window that is closed takes so much for itself and for each tab that goes with it, and no
/// memory: which tabs stand in which window is held beside them. A copy takes time and memory for all that it holds.
#[derive(Drop)]
pub struct SessionState {
    tabs: Rows<Tab>,
    windows: Rows<Window>,
    groups: Rows<GroupInfo>,
    active: Option<i32>,
    members: Members,
    alloc: Global,
}

impl Model for SessionState {
    ghost use Rattle.window_state.specs.States.{State};
    ghost use Rattle.window_state.specs.Members.{IsHeldInRange};

    ghost Value = { State };

    ghost view = { λ s. record { tabs = s.tabs; windows = s.windows; groups = s.groups; active = s.active } };

    ghost invariant = { λ s. IsHeldInRange s.members
        (record { tabs = s.tabs; windows = s.windows; groups = s.groups; active = s.active }) };
}

impl SessionState {
    ghost use Rattle.window_state.specs.States.{IsState, start, on_tab, on_window, placed, with_group, with_active, tab_closed, window_closed};
    ghost use Rattle.window_state.specs.Changes.{changed_tab, changed_window, edited_tab, edited_window};
    ghost use Rattle.window_state.specs.Fits.{TabChangeFits, WindowChangeFits};

    /// No tabs, windows and groups.
    pub fn start(alloc: Global) -> Result<SessionState, AllocError>
        ensures { IfOk result (λ s. s ≡ start) }
    {
        Ok(SessionState {
            tabs: Rows::new(alloc),
            windows: Rows::new(alloc),
            groups: Rows::new(alloc),
            active: None,
            members: Members::new(alloc),
            alloc,
        })
    }

    /// The state of these rows. It takes memory for the pairs of a window and a tab in it alone, and makes O(t log t)
    /// comparisons for t tabs.
    pub fn from_rows(
        alloc: Global,
        tabs: Rows<Tab>,
        windows: Rows<Window>,
        groups: Rows<GroupInfo>,
        active: Option<i32>,
    ) -> Result<SessionState, AllocError>
        requires { IsState (record { tabs = tabs; windows = windows; groups = groups; active = active }) }
        ensures { IfOk result
            (λ s. s ≡ record { tabs = tabs; windows = windows; groups = groups; active = active }) }
    {
        let members = Members::of(alloc, &tabs)?;
        Ok(SessionState {
            tabs,
            windows,
            groups,
            active,
            members,
            alloc,
        })
    }

    /// An empty call, by which code above learns what every state keeps.
    pub fn known(&self)
        ensures { IsState self.now }
    {
        // The lengths say that the rows are in order.
        let _tabs = self.tabs.len();
        let _windows = self.windows.len();
        let _groups = self.groups.len();
    }

    pub fn tabs(&self) -> &Rows<Tab>
        ensures { result.now ≡ self.now.tabs }
    {
        &self.tabs
    }

    pub fn windows(&self) -> &Rows<Window>
        ensures { result.now ≡ self.now.windows }
    {
        &self.windows
    }

    pub fn groups(&self) -> &Rows<GroupInfo>
        ensures { result.now ≡ self.now.groups }
    {
        &self.groups
    }

    pub fn active(&self) -> Option<i32>
        ensures { result ≡ self.now.active }
    {
        self.active
    }

    /// The tab is made where it isn't there, and changed. Where it would be one too many, nothing changes.
    pub fn change_tab(&mut self, id: i32, change: TabChange) -> Result<(), AllocError>
        requires { TabChangeFits change }
        ensures ok { OnOk result (self.new ≡ on_tab id (changed_tab change) self.old) }
        ensures err { OnErr result (self.new ≡ self.old) }
    {
        if self.tabs.is_full_for(id) {
            return Ok(());
        }
        // The length says that the tabs are in order.
        let _len = self.tabs.len();
        change.known_in_range();
        self.tabs.step(self.alloc, id, TabStep::Changed(change))
    }

    /// The window is made where it isn't there, and changed. Where it would be one too many, nothing changes.
    pub fn change_window(&mut self, id: i32, change: WindowChange) -> Result<(), AllocError>
        requires { WindowChangeFits change }
        ensures ok { OnOk result (self.new ≡ on_window id (changed_window change) self.old) }
        ensures err { OnErr result (self.new ≡ self.old) }
    {
        if self.windows.is_full_for(id) {
            return Ok(());
        }
        change.known_in_range();
        self.windows.step(self.alloc, id, change)
    }

    /// The tab is changed, where it is there. It takes no memory.
    pub fn edit_tab(&mut self, id: i32, edit: TabEdit)
        ensures stands { is_some (find_row int_cmp tab_key id self.old.tabs) ≡ true →
            self.new ≡ on_tab id (edited_tab edit) self.old }
        ensures absent { find_row int_cmp tab_key id self.old.tabs ≡ None → self.new ≡ self.old }
    {
        // The length says that the tabs are in order.
        let _len = self.tabs.len();
        edit.known_in_range();
        self.tabs.edit(id, edit);
    }

    /// The window is changed, where it is there. It takes no memory.
    pub fn edit_window(&mut self, id: i32, edit: WindowEdit)
        ensures stands { stands id self.old.windows ≡ true → self.new ≡ on_window id (edited_window edit) self.old }
        ensures absent { stands id self.old.windows ≡ false → self.new ≡ self.old }
    {
        // The length says that the windows are in order.
        let _len = self.windows.len();
        edit.known_in_range();
        self.windows.edit(id, edit);
    }

    /// The group takes the place of the one with its token, or is put in.
    pub fn put_group(&mut self, group: GroupInfo) -> Result<(), AllocError>
        ensures ok { OnOk result (self.new ≡ with_group group self.old) }
        ensures err { OnErr result (self.new ≡ self.old) }
    {
        ranges::of_group(&group);
        self.groups.put(group)
    }

    pub fn set_active(&mut self, window: i32)
        ensures { self.new ≡ with_active window self.old }
    {
        self.active = Some(window);
    }

    /// The tab goes, where it is there.
    pub fn close_tab(&mut self, id: i32)
        ensures { self.new ≡ tab_closed id self.old }
    {
        let own = window_of(&self.tabs, id);
        self.members.leave(id, own, None);
        // The length says that the tabs are in order.
        let _len = self.tabs.len();
        self.tabs.remove(id);
    }

    /// The tab stands in the window; both are made where they aren't there. Where one would be one too many, nothing
    /// changes.
    pub fn place_tab(&mut self, window: i32, tab: i32) -> Result<(), AllocError>
        ensures ok { OnOk result (self.new ≡ placed window tab self.old) }
        ensures err { OnErr result (self.new ≡ self.old) }
    {
        if self.windows.is_full_for(window) {
            return Ok(());
        }
        if self.tabs.is_full_for(tab) {
            return Ok(());
        }
        // The length says that the tabs are in order.
        let _len = self.tabs.len();
        let own = window_of(&self.tabs, tab);
        self.members.insert(window, tab)?;
        match place(&mut self.windows, &mut self.tabs, self.alloc, window, tab) {
            Ok(()) => {
                self.members.leave(tab, own, Some(window));
                Ok(())
            }
            Err(error) => {
                self.members.leave(tab, Some(window), own);
                Err(error)
            }
        }
    }

    /// The window and its tabs go, where it stands.
    pub fn close_window(&mut self, id: i32)
        ensures { self.new ≡ window_closed id self.old }
    {
        if self.windows.has(id) {
            self.windows.remove(id);
            close_tabs(&mut self.members, &mut self.tabs, id);
        }
    }

    /// The same state, in memory of its own.
    pub fn copy(&self) -> Result<SessionState, AllocError>
        ensures { IfOk result (λ s. s ≡ self.now) }
    {
        let tabs = self.tabs.copy(self.alloc)?;
        let windows = self.windows.copy(self.alloc)?;
        let groups = self.groups.copy(self.alloc)?;
        let members = self.members.copy()?;
        Ok(SessionState {
            tabs,
            windows,
            groups,
            active: self.active,
            members,
            alloc: self.alloc,
        })
    }
}

fn window_of(tabs: &Rows<Tab>, id: i32) -> Option<i32>
    ensures { result ≡ window_of id tabs.now }
{
    match tabs.get(id) {
        Some(tab) => tab.window,
        None => None,
    }
}

// The tabs of a window go, and their pairs with it.
fn close_tabs(members: &mut Members, tabs: &mut Rows<Tab>, window: i32)
    requires { AreMembers members.old tabs.old }
    ensures members { AreMembers members.new tabs.new }
    ensures tabs { tabs.new ≡ filter (λ tab. not (is_in window tab.window)) tabs.old }
{
    // The length says that the tabs are in order.
    let _len = tabs.len();
    while let Some(tab) = members.take(window) {
        tabs.remove(tab);
        let _len = tabs.len();
    }
}

// The window is made first: where the tab then finds no memory, a fresh window goes again.
fn place(
    windows: &mut Rows<Window>,
    tabs: &mut Rows<Tab>,
    alloc: Global,
    window: i32,
    tab: i32,
) -> Result<(), AllocError>
    ensures windows { OnOk result
        (windows.new ≡ step_row int_cmp window_key window (new_window window) (λ w. w) windows.old) }
    ensures tabs { OnOk result
        (tabs.new ≡ step_row int_cmp tab_key tab (new_tab tab) (λ t. record t { window = Some window }) tabs.old) }
    ensures err { OnErr result ((windows.new ≡ windows.old) × (tabs.new ≡ tabs.old)) }
{
    let stood = windows.has(window);
    windows.make(alloc, window)?;
    match tabs.step(alloc, tab, TabStep::Placed(window)) {
        Ok(()) => Ok(()),
        Err(error) => {
            if !stood {
                windows.remove(window);
            }
            Err(error)
        }
    }
}
