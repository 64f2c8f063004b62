//! Where a tab stands, and how it comes to another place.
//! Its seat is the place in its window's order.
ghost use Rattle.std.specs.Prelude.{◌≡◌, ◌≤◌, None, length, IfSome, IfNone, OnOk, OnErr};
ghost use Rattle.std.specs.List.{insert};
ghost use Rattle.std.specs.Ordering.{int_cmp};
ghost use Rattle.window_state.specs.Keys.{tab_key};
ghost use Rattle.window_state.specs.RowLists.{find_row};
ghost use Rattle.window_state.specs.States.{placed};
ghost use Rattle.browser_driver.specs.Orders.{order_of, SameOrders, SetsOrder};
ghost use Rattle.browser_driver.specs.Seats.{AreInSeats, HasSeat};

use crate::order::Orders;
use std::alloc::AllocError;
use window_state::SessionState;

/// The window and the place of a tab, where it is there.
pub(crate) fn seat_of(state: &SessionState, orders: &Orders, id: i32) -> Option<(i32, usize)>
    requires { AreInSeats state.now.tabs orders.now }
    ensures found { IfSome result (λ seat. HasSeat id state.now.tabs orders.now seat.0 seat.1) }
    ensures none { IfNone result (find_row int_cmp tab_key id state.now.tabs ≡ None) }
{
    let Some(tab) = state.tabs().get(id) else {
        return None;
    };
    let Some(window) = tab.window else {
        return None;
    };
    Some((window, tab.index as usize))
}

/// The tab stands in the window, both made where they aren't there, and has its place in the window's order. After want
/// of memory nothing has changed.
pub(crate) fn seat(
    state: &mut SessionState,
    orders: &mut Orders,
    window: i32,
    id: i32,
    place: usize,
) -> Result<(), AllocError>
    requires { place ≤ length (order_of window orders.old) }
    ensures state { OnOk result (state.new ≡ placed window id state.old) }
    ensures orders { OnOk result
        (SetsOrder window (insert (order_of window orders.old) place id) orders.old orders.new) }
    ensures err { OnErr result ((state.new ≡ state.old) × SameOrders orders.old orders.new) }
{
    orders.insert(window, place, id)?;
    match state.place_tab(window, id) {
        Ok(()) => Ok(()),
        Err(error) => {
            orders.remove(window, place);
            Err(error)
        }
    }
}
