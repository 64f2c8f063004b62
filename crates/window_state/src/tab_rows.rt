//! Tabs as rows under their ids.
ghost use Rattle.std.specs.Prelude.{◌≡◌, ℤ, refl, IfOk, OnOk, OnErr};
ghost use Rattle.std.proofs.lemmas.Map.Lookups.{exact_signed};
ghost use Rattle.window_state.specs.Keys.{tab_key};
ghost use Rattle.window_state.specs.Changes.{new_tab, stepped_tab, changed_tab, edited_tab};

use crate::change::{TabChange, TabEdit, TabStep};
use crate::current;
use crate::extra::Extra;
use crate::rows::{Changing, Editing, Row};
use crate::tab::{Tab, TabInfo};
use std::alloc::{AllocError, Global};
use tab_pages::Pages;

impl Row for Tab {
    type Key = i32;

    ghost key = { tab_key };

    fn key(&self) -> i32 {
        self.info.id
    }

    fn copy(&self) -> Result<Tab, AllocError> {
        let info = self.info.copy()?;
        let pages = self.pages.copy()?;
        Ok(Tab {
            info,
            window: self.window,
            index: self.index,
            current: self.current,
            pages,
        })
    }

    ghost same_key = { exact_signed };
}

impl Changing for Tab {
    type Change = TabStep;

    ghost fresh = { new_tab };

    ghost changed = { stepped_tab };

    fn fresh(alloc: Global, id: i32) -> Tab {
        Tab {
            info: TabInfo {
                id,
                pinned: false,
                extension: None,
                storage: None,
                guid: None,
                agent: None,
                group: None,
                last_active: 0,
                extra: Extra::new(alloc),
            },
            window: None,
            index: -1,
            current: -1,
            pages: Pages::new(alloc),
        }
    }

    fn change(&mut self, change: TabStep) -> Result<(), AllocError> {
        match change {
            TabStep::Placed(window) => {
                self.window = Some(window);
                Ok(())
            }
            TabStep::Changed(change) => change_tab(self, change),
        }
    }

    ghost fresh_key = { λ id. refl };
}

impl Editing for Tab {
    type Edit = TabEdit;

    ghost edited = { edited_tab };

    fn edit(&mut self, edit: TabEdit) {
        match edit {
            TabEdit::Index(index) => self.index = index,
            TabEdit::Current(index) => self.current = index,
            TabEdit::PruneBack(index) => self.pages.prune_back(index),
            TabEdit::PruneFront(count) => {
                self.pages.prune_front(count);
                self.current = current::front(count, self.current);
            }
            TabEdit::Pinned(pinned) => self.info.pinned = pinned,
            TabEdit::Group(group) => self.info.group = group,
            TabEdit::LastActive(time) => self.info.last_active = time,
        }
    }
}

fn change_tab(tab: &mut Tab, change: TabChange) -> Result<(), AllocError>
    ensures ok { OnOk result (tab.new ≡ changed_tab change tab.old) }
    ensures err { OnErr result (tab.new ≡ tab.old) }
    ensures same_key { tab_key tab.new ≡ tab_key tab.old }
{
    match change {
        TabChange::Index(index) => {
            tab.index = index;
            Ok(())
        }
        TabChange::Page(index, navigation) => {
            if index < 0 {
                return Ok(());
            }
            tab.pages.put(index, navigation)
        }
        TabChange::Current(index) => {
            tab.current = index;
            Ok(())
        }
        TabChange::PruneBack(index) => {
            tab.pages.prune_back(index);
            Ok(())
        }
        TabChange::PruneFront(count) => {
            tab.pages.prune_front(count);
            tab.current = current::front(count, tab.current);
            Ok(())
        }
        TabChange::Prune(index, count) => {
            tab.pages.prune(index, count);
            tab.current = current::pruned(index, count, tab.current);
            Ok(())
        }
        TabChange::Pinned(pinned) => {
            tab.info.pinned = pinned;
            Ok(())
        }
        TabChange::Extension(text) => {
            tab.info.extension = Some(text);
            Ok(())
        }
        TabChange::Storage(text) => {
            tab.info.storage = Some(text);
            Ok(())
        }
        TabChange::Guid(text) => {
            tab.info.guid = Some(text);
            Ok(())
        }
        TabChange::Agent(rest) => {
            tab.info.agent = Some(rest);
            Ok(())
        }
        TabChange::Group(group) => {
            tab.info.group = group;
            Ok(())
        }
        TabChange::LastActive(time) => {
            tab.info.last_active = time;
            Ok(())
        }
        TabChange::ExtraValue(key, value) => tab.info.extra.set(key, value),
    }
}
