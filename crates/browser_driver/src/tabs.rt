//! Verbs on what a tab is beside its pages: whether it is pinned, and its group.
//! Each is a call that changes the state of the session alone.

ghost use Rattle.std.specs.Prelude.{◌≡◌, ◌≤◌, [], ◌∷◌, true, length, IfOk, OnOk, OnErr};
ghost use Rattle.session_commands.specs.declared.command.SessionCommand.TheVariants.{GroupData, TabGroup};
ghost use Rattle.browser_model.specs.Navigations.{given_group};
ghost use Rattle.browser_driver.specs.Issues.{of_session};
ghost use Rattle.browser_driver.specs.Plans.{Follows, groups, in_group, pins, ungroups};

use crate::browser::Browser;
use crate::edits::edit_tab;
use crate::fault::{ActError, VerbFault};
use crate::issued::{Issued, one_command};
use navigation_entry::GroupInfo;
use pickle_cells::{Blob, Text16};
use session_commands::SessionCommand;
use std::alloc::{AllocError, Global};
use window_state::{GroupId, SessionState, TabEdit};

impl Browser {
    ghost use Rattle.browser_driver.specs.Answers.{Answers};
    ghost use Rattle.browser_driver.specs.Acts as act;
    ghost use Rattle.script_lines.specs.declared.verb.Verb.TheVariants.{Group, Ungroup};

    /// The tab is pinned or not.
    pub(crate) fn pin(&mut self, id: i32, pinned: bool) -> Result<Issued, ActError>
        ensures { Answers (act.pins pinned id self.old) self.old self.new result }
    {
        pin_tab(&mut self.state, self.alloc, id, pinned)
    }

    /// The tab goes into the group, whose title and colour are these from now on.
    pub(crate) fn group(
        &mut self,
        id: i32,
        group: GroupId,
        colour: u32,
        title: &Text16,
    ) -> Result<Issued, ActError>
        requires { length title.now ≤ 8192 }
        ensures { Answers (act.act (Group id group.high group.low colour title.now) self.old)
            self.old self.new result }
    {
        group_tab(&mut self.state, self.alloc, id, group, colour, title)
    }

    /// The tab is in no group.
    pub(crate) fn ungroup(&mut self, id: i32) -> Result<Issued, ActError>
        ensures { Answers (act.act (Ungroup id) self.old) self.old self.new result }
    {
        ungroup_tab(&mut self.state, self.alloc, id)
    }
}

fn pin_tab(
    state: &mut SessionState,
    alloc: Global,
    id: i32,
    pinned: bool,
) -> Result<Issued, ActError>
    ensures { Follows (pins pinned id state.old) state.old state.new result }
{
    if !state.tabs().has(id) {
        return Err(ActError::Refused(VerbFault::NoTab(id)));
    }
    let commands = one_command(alloc, SessionCommand::Pinned { tab: id, pinned })?;
    edit_tab(state, id, TabEdit::Pinned(pinned));
    Ok(Issued::of_session(alloc, commands))
}

fn ungroup_tab(state: &mut SessionState, alloc: Global, id: i32) -> Result<Issued, ActError>
    ensures { Follows (ungroups id state.old) state.old state.new result }
{
    if !state.tabs().has(id) {
        return Err(ActError::Refused(VerbFault::NoTab(id)));
    }
    let command = SessionCommand::TabGroup {
        tab: id,
        high: 0,
        low: 0,
        grouped: false,
    };
    let commands = one_command(alloc, command)?;
    edit_tab(state, id, TabEdit::Group(None));
    Ok(Issued::of_session(alloc, commands))
}

fn group_tab(
    state: &mut SessionState,
    alloc: Global,
    id: i32,
    group: GroupId,
    colour: u32,
    title: &Text16,
) -> Result<Issued, ActError>
    requires { length title.now ≤ 8192 }
    ensures { Follows (groups id (given_group group.high group.low title.now colour) state.old)
        state.old state.new result }
{
    if !state.tabs().has(id) {
        return Err(ActError::Refused(VerbFault::NoTab(id)));
    }
    let info = group_info(alloc, group, colour, title)?;
    let issued = put_in_group(state, alloc, id, info)?;
    Ok(issued)
}

// What is known of the group is put first, since the edit takes no memory.
fn put_in_group(
    state: &mut SessionState,
    alloc: Global,
    id: i32,
    info: GroupInfo,
) -> Result<Issued, AllocError>
    ensures ok { OnOk result (state.new ≡ in_group id info state.old) }
    ensures issued { IfOk result (λ issued. issued ≡ of_session
        (TabGroup id info.high info.low true ∷ GroupData info ∷ [])) }
    ensures err { OnErr result (state.new ≡ state.old) }
{
    let commands = group_commands(alloc, id, &info)?;
    let group = GroupId {
        high: info.high,
        low: info.low,
    };
    state.put_group(info)?;
    edit_tab(state, id, TabEdit::Group(Some(group)));
    Ok(Issued::of_session(alloc, commands))
}

// A group without a rest.
fn group_info(
    alloc: Global,
    group: GroupId,
    colour: u32,
    title: &Text16,
) -> Result<GroupInfo, AllocError>
    requires { length title.now ≤ 8192 }
    ensures { IfOk result (λ info. info ≡ given_group group.high group.low title.now colour) }
{
    let title = title.copy()?;
    let rest = Blob::from_slice(alloc, &[])?;
    Ok(GroupInfo {
        high: group.high,
        low: group.low,
        title,
        colour,
        rest,
    })
}

fn group_commands(
    alloc: Global,
    id: i32,
    info: &GroupInfo,
) -> Result<Vec<SessionCommand>, AllocError>
    ensures { IfOk result (λ v. v.items ≡ TabGroup id info.now.high info.now.low true ∷ GroupData info.now ∷ []) }
{
    let mut commands = Vec::with_capacity(alloc, 2)?;
    commands.push(SessionCommand::TabGroup {
        tab: id,
        high: info.high,
        low: info.low,
        grouped: true,
    })?;
    commands.push(SessionCommand::GroupData {
        group: info.copy()?,
    })?;
    Ok(commands)
}
