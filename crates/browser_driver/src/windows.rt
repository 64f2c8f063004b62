//! Verbs on a window that leave its tabs where they are.
//! Each is a call that changes the state of the session alone.

ghost use Rattle.std.specs.Prelude.{◌≤◌, length};
ghost use Rattle.window_state.specs.Limits.{limit};
ghost use Rattle.browser_driver.specs.Orders.{order_of};
ghost use Rattle.browser_driver.specs.Plans.{Follows};
ghost use Rattle.browser_driver.specs.WindowPlans.{activates, bounds_window, selects};

use crate::browser::Browser;
use crate::edits::edit_window;
use crate::fault::{ActError, VerbFault};
use crate::issued::{Issued, one_command};
use crate::order::Orders;
use navigation_entry::Bounds;
use session_commands::SessionCommand;
use std::alloc::Global;
use window_state::{SessionState, WindowEdit};

impl Browser {
    ghost use Rattle.script_lines.specs.declared.verb.Verb.TheVariants.{Active, Select, SetBounds};
    ghost use Rattle.browser_driver.specs.Answers.{Answers};
    ghost use Rattle.browser_driver.specs.Acts.{act};

    /// The window shows the tab at the place.
    pub(crate) fn select(&mut self, window: i32, place: i32) -> Result<Issued, ActError>
        ensures { Answers (act (Select window place) self.old) self.old self.new result }
    {
        select_tab(&mut self.state, &self.orders, self.alloc, window, place)
    }

    /// The window has these bounds.
    pub(crate) fn set_bounds(&mut self, window: i32, bounds: Bounds) -> Result<Issued, ActError>
        ensures { Answers (act (SetBounds window bounds) self.old) self.old self.new result }
    {
        bound_window(&mut self.state, self.alloc, window, bounds)
    }

    /// The window is the active one.
    pub(crate) fn activate(&mut self, window: i32) -> Result<Issued, ActError>
        ensures { Answers (act (Active window) self.old) self.old self.new result }
    {
        activate_window(&mut self.state, self.alloc, window)
    }
}

fn select_tab(
    state: &mut SessionState,
    orders: &Orders,
    alloc: Global,
    window: i32,
    place: i32,
) -> Result<Issued, ActError>
    requires { length (order_of window orders.now) ≤ limit }
    ensures { Follows (selects window place orders.now state.old) state.old state.new result }
{
    if !state.windows().has(window) {
        return Err(ActError::Refused(VerbFault::NoWindow(window)));
    }
    let count = orders.of(window).len() as i32;
    if place >= count {
        return Err(ActError::Refused(VerbFault::Place(place)));
    }
    let command = SessionCommand::SelectTab {
        window,
        index: place,
    };
    let commands = one_command(alloc, command)?;
    edit_window(state, window, WindowEdit::Selected(place));
    Ok(Issued::of_session(alloc, commands))
}

fn bound_window(
    state: &mut SessionState,
    alloc: Global,
    window: i32,
    bounds: Bounds,
) -> Result<Issued, ActError>
    ensures { Follows (bounds_window window bounds state.old) state.old state.new result }
{
    if !state.windows().has(window) {
        return Err(ActError::Refused(VerbFault::NoWindow(window)));
    }
    let commands = one_command(alloc, SessionCommand::WindowBounds { window, bounds })?;
    edit_window(state, window, WindowEdit::Bounded(bounds));
    Ok(Issued::of_session(alloc, commands))
}

fn activate_window(state: &mut SessionState, alloc: Global, window: i32) -> Result<Issued, ActError>
    ensures { Follows (activates window state.old) state.old state.new result }
{
    if !state.windows().has(window) {
        return Err(ActError::Refused(VerbFault::NoWindow(window)));
    }
    let commands = one_command(alloc, SessionCommand::ActiveWindow { window })?;
    state.set_active(window);
    Ok(Issued::of_session(alloc, commands))
}
