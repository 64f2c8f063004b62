//! Windows as rows under their ids.
ghost use Rattle.std.specs.Prelude.{◌≡◌, ℤ, refl, IfOk, OnOk, OnErr};
ghost use Rattle.std.proofs.lemmas.Map.Lookups.{exact_signed};
ghost use Rattle.window_state.specs.Keys.{window_key};
ghost use Rattle.window_state.specs.Changes.{new_window, changed_window, edited_window};

use crate::change::{WindowChange, WindowEdit};
use crate::extra::Extra;
use crate::rows::{Changing, Editing, Row};
use crate::window::{Window, WindowInfo};
use std::alloc::{AllocError, Global};

impl Row for Window {
    type Key = i32;

    ghost key = { window_key };

    fn key(&self) -> i32 {
        self.info.id
    }

    fn copy(&self) -> Result<Window, AllocError> {
        let info = self.info.copy()?;
        Ok(Window {
            info,
            selected: self.selected,
        })
    }

    ghost same_key = { exact_signed };
}

impl Changing for Window {
    type Change = WindowChange;

    ghost fresh = { new_window };

    ghost changed = { changed_window };

    fn fresh(alloc: Global, id: i32) -> Window {
        Window {
            info: WindowInfo {
                id,
                kind: 0,
                bounds: None,
                app: None,
                workspace: None,
                all_workspaces: false,
                title: None,
                extra: Extra::new(alloc),
            },
            selected: -1,
        }
    }

    fn change(&mut self, change: WindowChange) -> Result<(), AllocError> {
        match change {
            WindowChange::Selected(index) => {
                self.selected = index;
                Ok(())
            }
            WindowChange::Kind(kind) => {
                self.info.kind = kind;
                Ok(())
            }
            WindowChange::Bounded(bounds) => {
                self.info.bounds = Some(bounds);
                Ok(())
            }
            WindowChange::App(text) => {
                self.info.app = Some(text);
                Ok(())
            }
            WindowChange::Workspace(text) => {
                self.info.workspace = Some(text);
                Ok(())
            }
            WindowChange::AllWorkspaces(all) => {
                self.info.all_workspaces = all;
                Ok(())
            }
            WindowChange::Title(text) => {
                self.info.title = Some(text);
                Ok(())
            }
            WindowChange::ExtraValue(key, value) => self.info.extra.set(key, value),
        }
    }

    ghost fresh_key = { λ id. refl };
}

impl Editing for Window {
    type Edit = WindowEdit;

    ghost edited = { edited_window };

    fn edit(&mut self, edit: WindowEdit) {
        match edit {
            WindowEdit::Selected(index) => self.selected = index,
            WindowEdit::Bounded(bounds) => self.info.bounds = Some(bounds),
        }
    }
}
