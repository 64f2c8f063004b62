//! Changes of a tab or a window that stands.
//! All but one take no memory: a page that comes wants some.
ghost use Rattle.std.specs.Prelude.{◌≡◌, true, is_some, OnOk, OnErr};
ghost use Rattle.std.specs.Ordering.{int_cmp};
ghost use Rattle.window_state.specs.Changes.{edited_window};
ghost use Rattle.window_state.specs.Keys.{tab_key};
ghost use Rattle.window_state.specs.RowLists.{find_row};
ghost use Rattle.window_state.specs.States.{on_window, stands};
ghost use Rattle.browser_driver.specs.Plans.{with_edit, with_page};

use navigation_entry::Navigation;
use std::alloc::AllocError;
use window_state::{SessionState, TabChange, TabEdit, WindowEdit};

/// The tab is changed, where it is there. It takes no memory.
pub(crate) fn edit_tab(state: &mut SessionState, id: i32, edit: TabEdit)
    ensures { state.new ≡ with_edit id edit state.old }
{
    state.known();
    state.edit_tab(id, edit);
}

/// The page stands at the index of a tab that is there.
pub(crate) fn put_page(
    state: &mut SessionState,
    id: i32,
    index: i32,
    page: Navigation,
) -> Result<(), AllocError>
    requires { is_some (find_row int_cmp tab_key id state.old.tabs) ≡ true }
    ensures ok { OnOk result (state.new ≡ with_page id index page state.old) }
    ensures err { OnErr result (state.new ≡ state.old) }
{
    state.known();
    state.change_tab(id, TabChange::Page(index, page))
}

/// The window, which is there, is changed. It takes no memory.
pub(crate) fn edit_window(state: &mut SessionState, id: i32, edit: WindowEdit)
    requires { stands id state.old.windows ≡ true }
    ensures { state.new ≡ on_window id (edited_window edit) state.old }
{
    state.edit_window(id, edit);
}
