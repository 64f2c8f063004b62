//! The commands that tidy a shown tab.
ghost use Rattle.std.specs.Prelude.{◌≡◌, ◌<◌, ◌^◌, ◌++◌, pos, OnOk};
ghost use Rattle.std.specs.Ordering.{int_eq};
ghost use Rattle.session_commands.specs.declared.command.SessionCommand.TheVariants.{SelectNavigation, TabIndex};
ghost use Rattle.browser_model.specs.Tidying.{current_index, tidy_tab, unless};

use crate::gaps;
use session_commands::SessionCommand;
use std::alloc::AllocError;
use window_state::Tab;

/// The tab is at this position in its window, from 0.
pub(crate) fn push(place: u32, tab: &Tab, out: &mut Vec<SessionCommand>) -> Result<(), AllocError>
    requires { place < 2 ^ 31 }
    ensures { OnOk result (out.new.items ≡ out.old.items ++ tidy_tab place tab.now) }
{
    push_current(tab, out)?;
    gaps::push(tab, out)?;
    push_index(place, tab, out)?;
    Ok(())
}

// The current index becomes that of a page.
fn push_current(tab: &Tab, out: &mut Vec<SessionCommand>) -> Result<(), AllocError>
    ensures { OnOk result
        (out.new.items ≡ out.old.items ++ unless (int_eq (current_index tab.now) tab.now.current)
        (SelectNavigation tab.now.info.id (current_index tab.now))) }
{
    let index = current_index(tab);
    if index == tab.current {
        return Ok(());
    }
    out.push(SessionCommand::SelectNavigation {
        tab: tab.info.id,
        index,
    })?;
    Ok(())
}

// The index of the first page from the current index on, else of the last page.
fn current_index(tab: &Tab) -> i32
    ensures { result ≡ current_index tab.now }
{
    if tab.pages.is_empty() {
        return tab.current;
    }
    let place = tab.pages.first_from(tab.current);
    tab.pages.at(place as usize).0
}

fn push_index(place: u32, tab: &Tab, out: &mut Vec<SessionCommand>) -> Result<(), AllocError>
    requires { place < 2 ^ 31 }
    ensures { OnOk result
        (out.new.items ≡ out.old.items ++ unless (int_eq tab.now.index (pos place))
        (TabIndex tab.now.info.id (pos place))) }
{
    let index = place as i32;
    if tab.index == index {
        return Ok(());
    }
    out.push(SessionCommand::TabIndex {
        tab: tab.info.id,
        index,
    })?;
    Ok(())
}
