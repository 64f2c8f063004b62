//! The verb that moves a tab.
//! Tabs between its old place and its new one are told their places too.
ghost use Rattle.std.specs.Prelude.{◌≡◌, ◌+◌, ◌-◌, ◌<◌, ◌≤◌, suc, false, List, ◌∷◌, ◌++◌, drop, length, IfOk};
ghost use Rattle.std.specs.List.{remove};
ghost use Rattle.std.specs.Ordering.{int_eq};
ghost use Rattle.closed_entries.specs.declared.entry.Entry.{Entry};
ghost use Rattle.session_commands.specs.declared.command.SessionCommand.TheVariants.{TabWindow};
ghost use Rattle.window_state.specs.Limits.{limit};
ghost use Rattle.browser_model.specs.Pictures.{nat_of};
ghost use Rattle.browser_driver.specs.MovePlans.{elsewhere_step, move_step, moves, others, within_step};
ghost use Rattle.browser_driver.specs.Orders.{order_of, SetsOrder};
ghost use Rattle.browser_driver.specs.Places.{places_of, with_places};
ghost use Rattle.browser_driver.specs.SeatPlans.{FollowsSeats, TakesStep, parts};
ghost use Rattle.browser_driver.specs.Seats.{AreFew, AreInSeats};

use crate::browser::Browser;
use crate::fault::{ActError, VerbFault};
use crate::issued::Issued;
use crate::order::Orders;
use crate::places::{push_places, set_places};
use crate::seating::{seat, seat_of};
use session_commands::SessionCommand;
use std::alloc::{AllocError, Global};
use window_state::SessionState;

impl Browser {
    ghost use Rattle.script_lines.specs.declared.verb.Verb.TheVariants.{Move};
    ghost use Rattle.browser_driver.specs.Answers.{Answers};
    ghost use Rattle.browser_driver.specs.Acts.{act};

    /// The tab goes to a place in a window; a place below the first is the first.
    pub(crate) fn move_tab(&mut self, id: i32, window: i32, place: i32) -> Result<Issued, ActError>
        ensures { Answers (act (Move id window place) self.old) self.old self.new result }
    {
        move_tab(
            &mut self.state,
            &mut self.orders,
            self.alloc,
            id,
            window,
            place,
        )
    }
}

fn move_tab(
    state: &mut SessionState,
    orders: &mut Orders,
    alloc: Global,
    id: i32,
    window: i32,
    place: i32,
) -> Result<Issued, ActError>
    requires seats { AreInSeats state.old.tabs orders.old }
    requires few { AreFew orders.old }
    ensures { (closed : List Entry) → FollowsSeats (moves id window place (parts state.old orders.old closed))
        (parts state.old orders.old closed) (parts state.new orders.new closed) result }
{
    let Some((own, from)) = seat_of(state, orders, id) else {
        return Err(ActError::Refused(VerbFault::NoTab(id)));
    };
    if !state.windows().has(window) {
        return Err(ActError::Refused(VerbFault::NoWindow(window)));
    }
    let to = place_from(place);
    if to > others_count(orders, own, from, window) {
        return Err(ActError::Refused(VerbFault::Place(place)));
    }
    let issued = move_seated(state, orders, alloc, id, own, from, window, to)?;
    Ok(issued)
}

fn place_from(place: i32) -> usize
    ensures { result ≡ nat_of place }
{
    if place < 0 { 0 } else { place as usize }
}

// How many tabs of the window aren't the moved one.
fn others_count(orders: &Orders, own: i32, from: usize, window: i32) -> usize
    requires { from < length (order_of own orders.now) }
    ensures { result ≡ others own from orders.now window }
{
    let count = orders.of(window).len();
    if window == own { count - 1 } else { count }
}

// The tab stands at a place of a window. After want of memory nothing has changed.
fn move_seated(
    state: &mut SessionState,
    orders: &mut Orders,
    alloc: Global,
    id: i32,
    own: i32,
    from: usize,
    window: i32,
    to: usize,
) -> Result<Issued, AllocError>
    requires from { from < length (order_of own orders.old) }
    requires to { to ≤ others own from orders.old window }
    requires own { length (order_of own orders.old) ≤ limit }
    requires few { AreFew orders.old }
    ensures { (closed : List Entry) → TakesStep (move_step id own window from to (parts state.old orders.old closed))
        (parts state.old orders.old closed) (parts state.new orders.new closed) result }
{
    if window == own {
        move_within(state, orders, alloc, own, from, to)
    } else {
        move_elsewhere(state, orders, alloc, id, own, from, window, to)
    }
}

fn move_within(
    state: &mut SessionState,
    orders: &mut Orders,
    alloc: Global,
    window: i32,
    from: usize,
    to: usize,
) -> Result<Issued, AllocError>
    requires from { from < length (order_of window orders.old) }
    requires to { to < length (order_of window orders.old) }
    requires few { length (order_of window orders.old) ≤ limit }
    ensures { (closed : List Entry) → TakesStep (within_step window from to (parts state.old orders.old closed))
        (parts state.old orders.old closed) (parts state.new orders.new closed) result }
{
    let first = from.min(to);
    let last = from.max(to);
    orders.shift(window, from, to);
    match place_commands(alloc, first as u32, orders.between(window, first, last)) {
        Ok(commands) => {
            set_places(state, first as u32, orders.between(window, first, last));
            Ok(Issued::of_session(alloc, commands))
        }
        Err(error) => {
            orders.shift(window, to, from);
            Err(error)
        }
    }
}

fn place_commands(alloc: Global, first: u32, ids: &[i32]) -> Result<Vec<SessionCommand>, AllocError>
    requires { first + length ids.now ≤ limit }
    ensures { IfOk result (λ commands. commands.items ≡ places_of first ids.now) }
{
    let mut commands = Vec::with_capacity(alloc, ids.len())?;
    push_places(&mut commands, first, ids)?;
    Ok(commands)
}

fn move_elsewhere(
    state: &mut SessionState,
    orders: &mut Orders,
    alloc: Global,
    id: i32,
    own: i32,
    from: usize,
    window: i32,
    to: usize,
) -> Result<Issued, AllocError>
    requires apart { int_eq own window ≡ false }
    requires from { from < length (order_of own orders.old) }
    requires to { to ≤ length (order_of window orders.old) }
    requires few { length (order_of own orders.old) + length (order_of window orders.old) ≤ limit }
    ensures { (closed : List Entry) →
        TakesStep (elsewhere_step id own window from to (parts state.old orders.old closed))
        (parts state.old orders.old closed) (parts state.new orders.new closed) result }
{
    let later = orders.from(own, from + 1);
    let behind = orders.from(window, to);
    let commands = elsewhere_commands(alloc, id, window, from as u32, later, to as u32, behind)?;
    seat(state, orders, window, id, to)?;
    settle(state, orders, own, from, window, to);
    Ok(Issued::of_session(alloc, commands))
}

fn elsewhere_commands(
    alloc: Global,
    id: i32,
    window: i32,
    from: u32,
    later: &[i32],
    to: u32,
    behind: &[i32],
) -> Result<Vec<SessionCommand>, AllocError>
    requires later { from + length later.now ≤ limit }
    requires behind { to + length behind.now < limit }
    ensures { IfOk result (λ commands. commands.items ≡
        (TabWindow window id ∷ places_of from later.now) ++ places_of to (id ∷ behind.now)) }
{
    let mut commands = Vec::with_capacity(alloc, later.len() + behind.len() + 2)?;
    commands.push(SessionCommand::TabWindow { window, tab: id })?;
    push_places(&mut commands, from, later)?;
    commands.push(SessionCommand::TabIndex {
        tab: id,
        index: to as i32,
    })?;
    push_places(&mut commands, to + 1, behind)?;
    Ok(commands)
}

// The tab leaves its old window, and tabs behind its old and its new place get their places. It takes no memory.
fn settle(
    state: &mut SessionState,
    orders: &mut Orders,
    own: i32,
    from: usize,
    window: i32,
    to: usize,
)
    requires from { from < length (order_of own orders.old) }
    requires to { to ≤ length (order_of window orders.old) }
    requires own { length (order_of own orders.old) ≤ limit }
    requires window { length (order_of window orders.old) ≤ limit }
    ensures state { state.new ≡ with_places to (drop to (order_of window orders.old))
        (with_places from (drop (suc from) (order_of own orders.old)) state.old) }
    ensures orders { SetsOrder own (remove (order_of own orders.old) from) orders.old orders.new }
{
    set_places(state, from as u32, orders.from(own, from + 1));
    set_places(state, to as u32, orders.from(window, to));
    orders.remove(own, from);
}
