//! Verbs that close tabs and windows.
//! What had pages is the newest of the closed entries.
ghost use Rattle.std.specs.Prelude.{◌≡◌, ◌+◌, ◌<◌, ◌≤◌, suc, [], ◌∷◌, Some, length, drop, IfSome, IfOk, OnOk, OnErr};
ghost use Rattle.std.specs.List.{remove};
ghost use Rattle.std.specs.Ordering.{int_cmp};
ghost use Rattle.session_commands.specs.declared.command.SessionCommand.TheVariants.{TabClosed, WindowClosed};
ghost use Rattle.closed_entries.specs.States.{IsEntry};
ghost use Rattle.browser_model.specs.Entries.{left_commands, with_left};
ghost use Rattle.window_state.specs.declared.tab.Tab.{Tab as TheTab};
ghost use Rattle.window_state.specs.declared.window.Window.{Window as TheWindow};
ghost use Rattle.window_state.specs.Keys.{tab_key, window_key};
ghost use Rattle.window_state.specs.Limits.{limit};
ghost use Rattle.window_state.specs.RowLists.{find_row};
ghost use Rattle.browser_driver.specs.Issues.{issued};
ghost use Rattle.window_state.specs.States.{tab_closed, window_closed};
ghost use Rattle.browser_driver.specs.Orders.{order_of, SetsOrder};
ghost use Rattle.browser_driver.specs.Places.{places_of, with_places};
ghost use Rattle.browser_driver.specs.SeatPlans.{FollowsSeats, closes_tab, entry_of_row, parts};
ghost use Rattle.browser_driver.specs.Seats.{AreInSeats};
ghost use Rattle.browser_driver.specs.WindowEntries.{closes_window, entry_in_order};

use crate::browser::Browser;
use crate::entries::{tab_entry, window_entry};
use crate::fault::{ActError, VerbFault};
use crate::issued::{Issued, one_command};
use crate::order::Orders;
use crate::places::{push_places, set_places};
use crate::seating::seat_of;
use closed_entries::{ClosedState, Entry};
use session_commands::SessionCommand;
use std::alloc::{AllocError, Global};
use tab_restore_commands::TabsCommand;
use tabs_compactor::entry_commands;
use window_state::SessionState;

impl Browser {
    ghost use Rattle.script_lines.specs.declared.verb.Verb.TheVariants.{CloseTab, CloseWindow};
    ghost use Rattle.browser_driver.specs.Answers.{Answers};
    ghost use Rattle.browser_driver.specs.Acts.{act};

    /// The tab goes, and later tabs of its window move up.
    pub(crate) fn close_tab(&mut self, id: i32) -> Result<Issued, ActError>
        ensures { Answers (act (CloseTab id) self.old) self.old self.new result }
    {
        close_tab(
            &mut self.state,
            &mut self.orders,
            &mut self.closed,
            self.alloc,
            self.moment,
            id,
        )
    }

    /// The window and its tabs go.
    pub(crate) fn close_window(&mut self, id: i32) -> Result<Issued, ActError>
        ensures { Answers (act (CloseWindow id) self.old) self.old self.new result }
    {
        close_window(
            &mut self.state,
            &mut self.orders,
            &mut self.closed,
            self.alloc,
            self.moment,
            id,
        )
    }
}

fn close_tab(
    state: &mut SessionState,
    orders: &mut Orders,
    closed: &mut ClosedState,
    alloc: Global,
    moment: i64,
    id: i32,
) -> Result<Issued, ActError>
    requires { AreInSeats state.old.tabs orders.old }
    ensures { FollowsSeats (closes_tab id moment (parts state.old orders.old closed.old.entries))
        (parts state.old orders.old closed.old.entries) (parts state.new orders.new closed.new.entries) result }
{
    let Some((window, place)) = seat_of(state, orders, id) else {
        return Err(ActError::Refused(VerbFault::NoTab(id)));
    };
    let entry = entry_of(state, alloc, moment, id)?;
    let issued = close_seated(
        state, orders, closed, alloc, moment, id, window, place, entry,
    )?;
    Ok(issued)
}

// The entry of a tab, which is there.
fn entry_of(
    state: &SessionState,
    alloc: Global,
    moment: i64,
    id: i32,
) -> Result<Option<Entry>, AllocError>
    ensures is { (t : TheTab) → find_row int_cmp tab_key id state.now.tabs ≡ Some t →
        IfOk result (λ entry. entry ≡ entry_of_row state.now.groups moment t) }
    ensures fits { IfOk result (λ entry. IfSome entry IsEntry) }
{
    state.known();
    match state.tabs().get(id) {
        Some(tab) => tab_entry(alloc, state.groups(), moment, tab),
        None => Ok(None),
    }
}

// The tab stands at the place of the window. After want of memory nothing has changed.
fn close_seated(
    state: &mut SessionState,
    orders: &mut Orders,
    closed: &mut ClosedState,
    alloc: Global,
    moment: i64,
    id: i32,
    window: i32,
    place: usize,
    entry: Option<Entry>,
) -> Result<Issued, AllocError>
    requires within { place < length (order_of window orders.old) }
    requires few { length (order_of window orders.old) ≤ limit }
    requires entry { IfSome entry IsEntry }
    ensures ok { IfOk result (λ made. made ≡ issued
        (TabClosed id moment ∷ places_of place (drop (suc place) (order_of window orders.old))) (left_commands entry)) }
    ensures state { OnOk result (state.new ≡
        with_places place (drop (suc place) (order_of window orders.old)) (tab_closed id state.old)) }
    ensures orders { OnOk result
        (SetsOrder window (remove (order_of window orders.old) place) orders.old orders.new) }
    ensures closed { OnOk result (closed.new.entries ≡ with_left entry closed.old.entries) }
    ensures err { OnErr result
        ((state.new ≡ state.old) × (orders.new ≡ orders.old) × (closed.new.entries ≡ closed.old.entries)) }
{
    let session = close_commands(
        alloc,
        moment,
        id,
        place as u32,
        orders.from(window, place + 1),
    )?;
    let tabs = leave(alloc, closed, entry)?;
    take_out(state, orders, id, window, place);
    Ok(Issued::of_both(session, tabs))
}

fn close_window(
    state: &mut SessionState,
    orders: &mut Orders,
    closed: &mut ClosedState,
    alloc: Global,
    moment: i64,
    id: i32,
) -> Result<Issued, ActError>
    requires { length (order_of id orders.old) ≤ limit }
    ensures { FollowsSeats (closes_window id moment (parts state.old orders.old closed.old.entries))
        (parts state.old orders.old closed.old.entries) (parts state.new orders.new closed.new.entries) result }
{
    if !state.windows().has(id) {
        return Err(ActError::Refused(VerbFault::NoWindow(id)));
    }
    let entry = window_entry_of(state, orders, alloc, moment, id)?;
    let issued = close_open(state, orders, closed, alloc, moment, id, entry)?;
    Ok(issued)
}

// The entry of a window, which is there.
fn window_entry_of(
    state: &SessionState,
    orders: &Orders,
    alloc: Global,
    moment: i64,
    id: i32,
) -> Result<Option<Entry>, AllocError>
    requires { length (order_of id orders.now) ≤ limit }
    ensures is { (w : TheWindow) → find_row int_cmp window_key id state.now.windows ≡ Some w →
        IfOk result (λ entry. entry ≡
        entry_in_order state.now.tabs state.now.groups moment w (order_of id orders.now)) }
    ensures fits { IfOk result (λ entry. IfSome entry IsEntry) }
{
    state.known();
    match state.windows().get(id) {
        Some(window) => window_entry(
            alloc,
            state.tabs(),
            state.groups(),
            moment,
            window,
            orders.of(id),
        ),
        None => Ok(None),
    }
}

// After want of memory nothing has changed.
fn close_open(
    state: &mut SessionState,
    orders: &mut Orders,
    closed: &mut ClosedState,
    alloc: Global,
    moment: i64,
    id: i32,
    entry: Option<Entry>,
) -> Result<Issued, AllocError>
    requires { IfSome entry IsEntry }
    ensures ok { IfOk result (λ made. made ≡ issued (WindowClosed id moment ∷ []) (left_commands entry)) }
    ensures state { OnOk result (state.new ≡ window_closed id state.old) }
    ensures orders { OnOk result (SetsOrder id [] orders.old orders.new) }
    ensures closed { OnOk result (closed.new.entries ≡ with_left entry closed.old.entries) }
    ensures err { OnErr result
        ((state.new ≡ state.old) × (orders.new ≡ orders.old) × (closed.new.entries ≡ closed.old.entries)) }
{
    let command = SessionCommand::WindowClosed {
        window: id,
        time: moment,
    };
    let session = one_command(alloc, command)?;
    let tabs = leave(alloc, closed, entry)?;
    state.close_window(id);
    orders.forget(id);
    Ok(Issued::of_both(session, tabs))
}

fn close_commands(
    alloc: Global,
    moment: i64,
    id: i32,
    place: u32,
    later: &[i32],
) -> Result<Vec<SessionCommand>, AllocError>
    requires { place + length later.now ≤ 1048576 }
    ensures { IfOk result (λ commands. commands.items ≡ TabClosed id moment ∷ places_of place later.now) }
{
    let mut commands = Vec::with_capacity(alloc, later.len() + 1)?;
    commands.push(SessionCommand::TabClosed {
        tab: id,
        time: moment,
    })?;
    push_places(&mut commands, place, later)?;
    Ok(commands)
}

// The entry, where there is one, is the newest of those that are closed; the answer is the commands that say so.
fn leave(
    alloc: Global,
    closed: &mut ClosedState,
    entry: Option<Entry>,
) -> Result<Vec<TabsCommand>, AllocError>
    requires { IfSome entry IsEntry }
    ensures ok { IfOk result (λ commands. commands.items ≡ left_commands entry) }
    ensures closed { OnOk result (closed.new.entries ≡ with_left entry closed.old.entries) }
    ensures err { OnErr result (closed.new ≡ closed.old) }
{
    let Some(entry) = entry else {
        return Ok(Vec::new(alloc));
    };
    let commands = entry_commands(alloc, &entry)?;
    closed.open(entry, 0)?;
    Ok(commands)
}

// It takes no memory.
fn take_out(state: &mut SessionState, orders: &mut Orders, id: i32, window: i32, place: usize)
    requires within { place < length (order_of window orders.old) }
    requires few { length (order_of window orders.old) ≤ limit }
    ensures state { state.new ≡
        with_places place (drop (suc place) (order_of window orders.old)) (tab_closed id state.old) }
    ensures orders { SetsOrder window (remove (order_of window orders.old) place) orders.old orders.new }
{
    state.close_tab(id);
    set_places(state, place as u32, orders.from(window, place + 1));
    orders.remove(window, place);
}
