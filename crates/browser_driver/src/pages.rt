//! Verbs on the pages of a tab.
//! Each is a call that changes the state of the session alone.

ghost use Rattle.std.specs.Prelude.{◌≡◌, [], ◌∷◌, true, is_some, IfOk, OnOk, OnErr};
ghost use Rattle.std.specs.Option.{option_copied};
ghost use Rattle.std.specs.Ordering.{int_cmp};
ghost use Rattle.session_commands.specs.declared.command.SessionCommand.TheVariants.{UpdateNavigation};
ghost use Rattle.window_state.specs.Keys.{tab_key};
ghost use Rattle.window_state.specs.RowLists.{find_row};
ghost use Rattle.browser_model.specs.OneTab.{reached};
ghost use Rattle.browser_driver.specs.Issues.{of_session};
ghost use Rattle.browser_driver.specs.Plans.{Follows, goes_back, goes_forward, page_shown, shows, titles, with_page};

use crate::browser::Browser;
use crate::edits::{edit_tab, put_page};
use crate::fault::{ActError, VerbFault};
use crate::issued::{Issued, one_command};
use crate::page::titled_page;
use crate::visiting::visit_page;
use navigation_entry::Navigation;
use pickle_cells::{Blob, Text16};
use session_commands::SessionCommand;
use std::alloc::{AllocError, Global};
use window_state::{SessionState, Tab, TabEdit};

impl Browser {
    ghost use Rattle.browser_driver.specs.Answers.{Answers};
    ghost use Rattle.browser_driver.specs.Acts.{act};
    ghost use Rattle.script_lines.specs.declared.verb.Verb.TheVariants.{Back, Forward, Title, Visit};

    /// The tab visits a page; pages behind the current one go, and the first of more than 50.
    pub(crate) fn visit(
        &mut self,
        id: i32,
        url: &Blob,
        state_len: u32,
        title: &Text16,
    ) -> Result<Issued, ActError>
        ensures { Answers (act (Visit id url.now state_len title.now) self.old) self.old self.new result }
    {
        visit_page(
            &mut self.state,
            self.alloc,
            self.moment,
            id,
            url,
            state_len,
            title,
        )
    }

    /// The tab shows the page before the current one.
    pub(crate) fn go_back(&mut self, id: i32) -> Result<Issued, ActError>
        ensures { Answers (act (Back id) self.old) self.old self.new result }
    {
        go_back(&mut self.state, self.alloc, id)
    }

    /// The tab shows the page behind the current one.
    pub(crate) fn go_forward(&mut self, id: i32) -> Result<Issued, ActError>
        ensures { Answers (act (Forward id) self.old) self.old self.new result }
    {
        go_forward(&mut self.state, self.alloc, id)
    }

    /// The tab's current page gets a title.
    pub(crate) fn set_title(&mut self, id: i32, title: &Text16) -> Result<Issued, ActError>
        ensures { Answers (act (Title id title.now) self.old) self.old self.new result }
    {
        title_page(&mut self.state, self.alloc, id, title)
    }
}

/// How many pages stand up to the current one.
pub(crate) fn reached(current: i32) -> u32
    ensures { result ≡ reached current }
{
    if current < 0 {
        return 0;
    }
    current as u32 + 1
}

fn go_back(state: &mut SessionState, alloc: Global, id: i32) -> Result<Issued, ActError>
    ensures { Follows (goes_back id state.old) state.old state.new result }
{
    let Some(tab) = state.tabs().get(id) else {
        return Err(ActError::Refused(VerbFault::NoTab(id)));
    };
    let current = tab.current;
    if current < 1 {
        return Err(ActError::Refused(VerbFault::NoBack(id)));
    }
    show_page(state, alloc, id, current - 1)
}

fn go_forward(state: &mut SessionState, alloc: Global, id: i32) -> Result<Issued, ActError>
    ensures { Follows (goes_forward id state.old) state.old state.new result }
{
    state.known();
    let Some(tab) = state.tabs().get(id) else {
        return Err(ActError::Refused(VerbFault::NoTab(id)));
    };
    let next = reached(tab.current);
    if next as usize >= tab.pages.len() {
        return Err(ActError::Refused(VerbFault::NoForward(id)));
    }
    show_page(state, alloc, id, next as i32)
}

fn show_page(
    state: &mut SessionState,
    alloc: Global,
    id: i32,
    index: i32,
) -> Result<Issued, ActError>
    ensures { Follows (shows id index state.old) state.old state.new result }
{
    let commands = one_command(alloc, SessionCommand::SelectNavigation { tab: id, index })?;
    edit_tab(state, id, TabEdit::Current(index));
    Ok(Issued::of_session(alloc, commands))
}

// The page that the tab shows.
fn current_page(tab: &Tab) -> Option<&Navigation>
    ensures { option_copied result ≡ page_shown tab.now.current tab.now.pages }
{
    if tab.current < 0 {
        return None;
    }
    let place = tab.current as usize;
    if place >= tab.pages.len() {
        return None;
    }
    let (_, page) = tab.pages.at(place);
    Some(page)
}

fn title_page(
    state: &mut SessionState,
    alloc: Global,
    id: i32,
    title: &Text16,
) -> Result<Issued, ActError>
    ensures { Follows (titles id title.now state.old) state.old state.new result }
{
    let Some(tab) = state.tabs().get(id) else {
        return Err(ActError::Refused(VerbFault::NoTab(id)));
    };
    let current = tab.current;
    let Some(page) = current_page(tab) else {
        return Err(ActError::Refused(VerbFault::NoPage(id)));
    };
    let page = titled_page(alloc, title, page)?;
    let issued = put_titled(state, alloc, id, current, page)?;
    Ok(issued)
}

fn put_titled(
    state: &mut SessionState,
    alloc: Global,
    id: i32,
    index: i32,
    page: Navigation,
) -> Result<Issued, AllocError>
    requires { is_some (find_row int_cmp tab_key id state.old.tabs) ≡ true }
    ensures ok { OnOk result (state.new ≡ with_page id index page state.old) }
    ensures issued { IfOk result (λ issued. issued ≡ of_session (UpdateNavigation id index page ∷ [])) }
    ensures err { OnErr result (state.new ≡ state.old) }
{
    let command = SessionCommand::UpdateNavigation {
        tab: id,
        index,
        navigation: page.copy()?,
    };
    let commands = one_command(alloc, command)?;
    put_page(state, id, index, page)?;
    Ok(Issued::of_session(alloc, commands))
}
