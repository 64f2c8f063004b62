//! A tab that visits a page.
//! The page is put first, since nothing behind that takes memory.
ghost use Rattle.std.specs.Prelude.{◌≡◌, ◌+◌, ◌<◌, ◌≤◌, ◌^◌, ◌++◌, true, nat_lt, is_some, IfOk, OnOk, OnErr};
ghost use Rattle.std.specs.Ordering.{int_cmp};
ghost use Rattle.session_commands.specs.declared.command.SessionCommand.TheVariants.{PrunedBack, PrunedFront};
ghost use Rattle.window_state.specs.Keys.{tab_key};
ghost use Rattle.window_state.specs.RowLists.{find_row};
ghost use Rattle.browser_model.specs.Navigations.{visit_state, visited_page};
ghost use Rattle.browser_model.specs.OneTab.{where_so};
ghost use Rattle.browser_driver.specs.Issues.{of_session};
ghost use Rattle.browser_driver.specs.Plans.{Follows};
ghost use Rattle.browser_driver.specs.VisitPlans.{cut_behind, settled, visit_commands, visits, with_visit};

use crate::edits::{edit_tab, put_page};
use crate::fault::{ActError, VerbFault};
use crate::issued::Issued;
use crate::page::visited_page;
use crate::pages::reached;
use navigation_entry::Navigation;
use pickle_cells::{Blob, Text16};
use session_commands::SessionCommand;
use std::alloc::{AllocError, Global};
use window_state::{SessionState, TabEdit};

/// The most pages of a tab after a visit.
const MOST_PAGES: u32 = 50;

/// The tab visits a page at a moment; pages behind the current one go, and the first of more than 50.
pub(crate) fn visit_page(
    state: &mut SessionState,
    alloc: Global,
    moment: i64,
    id: i32,
    url: &Blob,
    state_len: u32,
    title: &Text16,
) -> Result<Issued, ActError>
    ensures { Follows (visits id (visited_page url.now title.now (visit_state state_len) moment) moment state.old)
        state.old state.new result }
{
    state.known();
    let Some(tab) = state.tabs().get(id) else {
        return Err(ActError::Refused(VerbFault::NoTab(id)));
    };
    let current = tab.current;
    let count = tab.pages.len();
    if current == i32::MAX {
        return Err(ActError::Refused(VerbFault::Full(id)));
    }
    let page = visited_page(alloc, url, state_len, title, moment)?;
    let issued = put_visited(state, alloc, moment, id, reached(current), count, page)?;
    Ok(issued)
}

// Where memory is wanted nothing changes.
fn put_visited(
    state: &mut SessionState,
    alloc: Global,
    moment: i64,
    id: i32,
    reached: u32,
    count: usize,
    page: Navigation,
) -> Result<Issued, AllocError>
    requires stands { is_some (find_row int_cmp tab_key id state.old.tabs) ≡ true }
    requires room { reached < 2 ^ 31 }
    requires few { count ≤ 2 ^ 31 }
    ensures ok { OnOk result (state.new ≡ with_visit id reached count page moment state.old) }
    ensures issued { IfOk result (λ issued. issued ≡ of_session (visit_commands id reached count page moment)) }
    ensures err { OnErr result (state.new ≡ state.old) }
{
    let commands = visit_commands(alloc, moment, id, reached, count, &page)?;
    put_page(state, id, reached as i32, page)?;
    settle(state, moment, id, reached, count);
    Ok(Issued::of_session(alloc, commands))
}

// What is changed of the tab beside the page. It takes no memory.
fn settle(state: &mut SessionState, moment: i64, id: i32, reached: u32, count: usize)
    requires room { reached < 2 ^ 31 }
    requires few { count ≤ 2 ^ 31 }
    ensures { state.new ≡ settled id reached count moment state.old }
{
    let dropped = (reached + 1).saturating_sub(MOST_PAGES);
    cut_behind(state, id, reached, count);
    edit_tab(state, id, TabEdit::Current(reached as i32));
    edit_tab(state, id, TabEdit::PruneFront(dropped as i32));
    edit_tab(state, id, TabEdit::LastActive(moment));
}

// Pages behind a place go, where there are any.
fn cut_behind(state: &mut SessionState, id: i32, place: u32, count: usize)
    requires room { place < 2 ^ 31 }
    requires few { count ≤ 2 ^ 31 }
    ensures { state.new ≡ cut_behind id place count state.old }
{
    let next = place + 1;
    if next as usize >= count {
        return;
    }
    edit_tab(state, id, TabEdit::PruneBack(next as i32));
}

fn visit_commands(
    alloc: Global,
    moment: i64,
    id: i32,
    reached: u32,
    count: usize,
    page: &Navigation,
) -> Result<Vec<SessionCommand>, AllocError>
    requires { reached < 2 ^ 31 }
    ensures { IfOk result (λ v. v.items ≡ visit_commands id reached count page.now moment) }
{
    let index = reached as i32;
    let dropped = (reached + 1).saturating_sub(MOST_PAGES);
    let navigation = page.copy()?;
    let mut commands = Vec::with_capacity(alloc, 5)?;
    push_cut(&mut commands, id, index, (reached as usize) < count)?;
    commands.push(SessionCommand::UpdateNavigation {
        tab: id,
        index,
        navigation,
    })?;
    commands.push(SessionCommand::SelectNavigation { tab: id, index })?;
    push_fall(&mut commands, id, dropped as i32, dropped > 0)?;
    commands.push(SessionCommand::LastActive {
        tab: id,
        time: moment,
    })?;
    Ok(commands)
}

// Pages behind the current one go, where there are any.
fn push_cut(
    commands: &mut Vec<SessionCommand>,
    id: i32,
    index: i32,
    so: bool,
) -> Result<(), AllocError>
    ensures { OnOk result (commands.new.items ≡ commands.old.items ++ where_so so (PrunedBack id index)) }
{
    if !so {
        return Ok(());
    }
    commands.push(SessionCommand::PrunedBack { tab: id, index })?;
    Ok(())
}

// The first pages go, where there are too many.
fn push_fall(
    commands: &mut Vec<SessionCommand>,
    id: i32,
    count: i32,
    so: bool,
) -> Result<(), AllocError>
    ensures { OnOk result (commands.new.items ≡ commands.old.items ++ where_so so (PrunedFront id count)) }
{
    if !so {
        return Ok(());
    }
    commands.push(SessionCommand::PrunedFront { tab: id, count })?;
    Ok(())
}
