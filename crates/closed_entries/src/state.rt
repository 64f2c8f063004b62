//! The state of closed entries.
ghost use Rattle.std.specs.Prelude.{◌≡◌, ◌<◌, IfOk, OnOk, OnErr};
ghost use Rattle.tab_restore_commands.specs.Table.{IsSound};

use crate::closed_tab::ClosedTab;
use crate::entry::Entry;
use crate::{changes, entry_list, ranges};
use item_list::Items;
use std::alloc::{AllocError, Global};
use std::marker::Model;
use tab_restore_commands::TabsCommand;

/// The tabs and windows that were closed, the newest last: at most `ENTRIES`. The newest may be open, so that commands
/// speak of it, and where it is a window, some of its tabs may be awaited: at most 2^31 - 1, those that came among
/// them. Every text, navigation and group fits the payload of its command.
///
/// A change takes constant time, beside what `Pages` says of a page that is put in and the growth of a window's list.
#[derive(Drop)]
pub struct ClosedState {
    entries: Items<Entry>,
    open_entry: bool,
    awaited: u32,
}

impl Model for ClosedState {
    ghost use Rattle.closed_entries.specs.States.{State, IsState};

    ghost Value = { State };

    ghost view = { λ s. record { entries = s.entries; open_entry = s.open_entry; awaited = s.awaited } };

    ghost invariant = { λ s. IsState (record { entries = s.entries; open_entry = s.open_entry; awaited = s.awaited }) };
}

impl ClosedState {
    ghost use Rattle.closed_entries.specs.States.{HasRoom, IsEntry, IsState, IsTab, start};
    ghost use Rattle.closed_entries.specs.Step.{on_open_entry, opened, restored, selected};
    ghost use Rattle.closed_entries.specs.Parts.{changed_entry};

    /// No entries. It takes no memory.
    pub fn start(alloc: Global) -> Result<ClosedState, AllocError>
        ensures { IfOk result (λ s. s ≡ start) }
    {
        Ok(ClosedState {
            entries: Items::new(alloc),
            open_entry: false,
            awaited: 0,
        })
    }

    /// An empty call, by which code above learns what every state keeps.
    pub fn known(&self)
        ensures { IsState self.now }
    {
        let _entries = &self.entries;
    }

    /// The entries, the newest last.
    pub fn entries(&self) -> &[Entry]
        ensures { result.now ≡ self.now.entries }
    {
        self.entries.as_slice()
    }

    /// Whether commands speak of the newest entry.
    pub fn open_entry(&self) -> bool
        ensures { result ≡ self.now.open_entry }
    {
        self.open_entry
    }

    /// How many tabs are still to come for the newest entry.
    pub fn awaited(&self) -> u32
        ensures { result ≡ self.now.awaited }
    {
        self.awaited
    }

    /// The same state, in memory of its own: it takes time and memory for all that the entries hold.
    pub fn copy(&self) -> Result<ClosedState, AllocError>
        ensures { IfOk result (λ s. s ≡ self.now) }
    {
        let entries = entry_list::copied(self.allocator(), self.entries())?;
        Ok(ClosedState {
            entries: Items::from_vec(entries),
            open_entry: self.open_entry,
            awaited: self.awaited,
        })
    }

    /// The allocator from which the state takes its memory.
    pub(crate) fn allocator(&self) -> Global {
        self.entries.allocator()
    }

    /// A new entry goes last, is open and awaits so many tabs; where it is one too many, the oldest goes.
    pub fn open(&mut self, entry: Entry, awaited: u32) -> Result<(), AllocError>
        requires entry { IsEntry entry }
        requires room { 0 < awaited → HasRoom awaited entry }
        ensures ok { OnOk result (self.new ≡ opened entry awaited self.old) }
        ensures err { OnErr result (self.new ≡ self.old) }
    {
        entry_list::push(self.entries.as_mut_vec(), entry)?;
        self.open_entry = true;
        self.awaited = awaited;
        Ok(())
    }

    /// A tab that is awaited goes to the newest window; any other is an entry of its own.
    pub(crate) fn select(&mut self, tab: ClosedTab) -> Result<(), AllocError>
        requires { IsTab tab }
        ensures ok { OnOk result (self.new ≡ selected tab self.old) }
        ensures err { OnErr result (self.new ≡ self.old) }
    {
        if self.awaited == 0 {
            return self.open(Entry::Tab(tab), 0);
        }
        entry_list::join(self.entries.as_mut_vec(), tab)?;
        self.awaited -= 1;
        Ok(())
    }

    /// The newest entry with the id goes, none where that is 0; no entry is open and nothing is awaited.
    pub(crate) fn restore(&mut self, id: i32)
        ensures { self.new ≡ restored id self.old }
    {
        if id != 0 {
            entry_list::remove(self.entries.as_mut_vec(), id);
        }
        self.open_entry = false;
        self.awaited = 0;
    }

    /// What a command says of the open entry, where there is one.
    pub(crate) fn change(&mut self, command: &TabsCommand) -> Result<(), AllocError>
        requires { IsSound command.now }
        ensures ok { OnOk result (self.new ≡ on_open_entry (changed_entry command.now) self.old) }
        ensures err { OnErr result (self.new ≡ self.old) }
    {
        if !self.open_entry {
            return Ok(());
        }
        ranges::of_change(command);
        changes::newest(self.entries.as_mut_vec(), command)
    }
}
