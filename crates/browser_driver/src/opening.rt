//! Verbs that open windows and tabs.
//! A tab is the last one of its window.
ghost use Rattle.std.specs.Prelude.{◌≡◌, ◌≤◌, pos, false, List, [], ◌∷◌, length, IfOk, OnOk, OnErr};
ghost use Rattle.std.specs.List.{insert};
ghost use Rattle.closed_entries.specs.declared.entry.Entry.{Entry};
ghost use Rattle.session_commands.specs.declared.command.SessionCommand.TheVariants.{TabIndex, TabWindow};
ghost use Rattle.window_state.specs.declared.change.TabEdit.TheVariants.{Index};
ghost use Rattle.window_state.specs.Limits.{limit};
ghost use Rattle.window_state.specs.States.{placed};
ghost use Rattle.browser_driver.specs.Issues.{of_session};
ghost use Rattle.browser_driver.specs.OpenPlans.{is_there, lacks_room, opens_tab, opens_window};
ghost use Rattle.browser_driver.specs.Orders.{order_of, SameOrders, SetsOrder};
ghost use Rattle.browser_driver.specs.Plans.{Follows, with_edit};
ghost use Rattle.browser_driver.specs.SeatPlans.{FollowsSeats, parts};

use crate::browser::Browser;
use crate::edits::edit_tab;
use crate::fault::{ActError, VerbFault};
use crate::issued::{Issued, one_command};
use crate::order::Orders;
use crate::seating::seat;
use session_commands::SessionCommand;
use std::alloc::{AllocError, Global};
use window_state::{SessionState, TabEdit, WindowChange};

impl Browser {
    ghost use Rattle.script_lines.specs.declared.verb.Verb.TheVariants.{Tab, Window};
    ghost use Rattle.browser_driver.specs.Answers.{Answers};
    ghost use Rattle.browser_driver.specs.Acts.{act};

    /// The window opens without tabs.
    pub(crate) fn open_window(&mut self, id: i32) -> Result<Issued, ActError>
        ensures { Answers (act (Window id) self.old) self.old self.new result }
    {
        open_window(&mut self.state, self.alloc, id)
    }

    /// The tab opens without pages, the last one of the window, which opens where it isn't there.
    pub(crate) fn open_tab(&mut self, window: i32, id: i32) -> Result<Issued, ActError>
        ensures { Answers (act (Tab window id) self.old) self.old self.new result }
    {
        open_tab(&mut self.state, &mut self.orders, self.alloc, window, id)
    }
}

fn open_window(state: &mut SessionState, alloc: Global, id: i32) -> Result<Issued, ActError>
    ensures { Follows (opens_window id state.old) state.old state.new result }
{
    if state.windows().has(id) {
        return Err(ActError::Refused(VerbFault::Taken(id)));
    }
    state.known();
    if state.windows().is_full_for(id) {
        return Err(ActError::Refused(VerbFault::Full(id)));
    }
    let command = SessionCommand::WindowKind {
        window: id,
        kind: 0,
    };
    let commands = one_command(alloc, command)?;
    state.change_window(id, WindowChange::Kind(0))?;
    Ok(Issued::of_session(alloc, commands))
}

fn open_tab(
    state: &mut SessionState,
    orders: &mut Orders,
    alloc: Global,
    window: i32,
    id: i32,
) -> Result<Issued, ActError>
    requires { length (order_of window orders.old) ≤ limit }
    ensures { (closed : List Entry) → FollowsSeats (opens_tab window id (parts state.old orders.old closed))
        (parts state.old orders.old closed) (parts state.new orders.new closed) result }
{
    if state.tabs().has(id) {
        return Err(ActError::Refused(VerbFault::Taken(id)));
    }
    if lacks_room(state, window, id) {
        return Err(ActError::Refused(VerbFault::Full(id)));
    }
    let issued = open_last(state, orders, alloc, window, id)?;
    Ok(issued)
}

fn lacks_room(state: &SessionState, window: i32, id: i32) -> bool
    ensures { is_there id state.now ≡ false → result ≡ lacks_room window state.now }
{
    state.known();
    if state.tabs().is_full_for(id) {
        return true;
    }
    state.windows().is_full_for(window)
}

// The tab is told its place in the window. After want of memory nothing has changed.
fn open_last(
    state: &mut SessionState,
    orders: &mut Orders,
    alloc: Global,
    window: i32,
    id: i32,
) -> Result<Issued, AllocError>
    requires { length (order_of window orders.old) ≤ limit }
    ensures ok { IfOk result (λ made. made ≡
        of_session (TabWindow window id ∷ TabIndex id (pos (length (order_of window orders.old))) ∷ [])) }
    ensures state { OnOk result (state.new ≡
        with_edit id (Index (pos (length (order_of window orders.old)))) (placed window id state.old)) }
    ensures orders { OnOk result (SetsOrder window
        (insert (order_of window orders.old) (length (order_of window orders.old)) id) orders.old orders.new) }
    ensures err { OnErr result ((state.new ≡ state.old) × SameOrders orders.old orders.new) }
{
    let place = orders.of(window).len();
    let commands = open_commands(alloc, window, id, place as i32)?;
    seat(state, orders, window, id, place)?;
    edit_tab(state, id, TabEdit::Index(place as i32));
    Ok(Issued::of_session(alloc, commands))
}

fn open_commands(
    alloc: Global,
    window: i32,
    id: i32,
    place: i32,
) -> Result<Vec<SessionCommand>, AllocError>
    ensures { IfOk result (λ commands. commands.items ≡ TabWindow window id ∷ TabIndex id place ∷ []) }
{
    let mut commands = Vec::with_capacity(alloc, 2)?;
    commands.push(SessionCommand::TabWindow { window, tab: id })?;
    commands.push(SessionCommand::TabIndex {
        tab: id,
        index: place,
    })?;
    Ok(commands)
}
