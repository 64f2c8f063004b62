//! A browser.
//! Verbs change it, each in the module of its subject.
ghost use Rattle.std.specs.Prelude.{◌≡◌, IfOk};

use crate::order::Orders;
use closed_entries::ClosedState;
use std::alloc::{AllocError, Global};
use std::marker::Model;
use window_state::SessionState;

/// Windows by rising id, each with its tabs in order of place, each tab with its pages; the known groups, the active
/// window, what was closed, and the moment.
///
/// A verb takes time in the logarithm of the numbers of windows and of tabs, beside what it moves (the later tabs of a
/// window, and pages that go) and what it copies (the texts that it brings, and the tabs that it closes).
#[derive(Drop)]
pub struct Browser {
    pub(crate) state: SessionState,
    pub(crate) orders: Orders,
    pub(crate) closed: ClosedState,
    pub(crate) moment: i64,
    pub(crate) alloc: Global,
}

impl Model for Browser {
    ghost use Rattle.browser_model.specs.Browsers.{Browser as Lists};
    ghost use Rattle.browser_driver.specs.Held.{held, IsHeld};

    ghost Value = { Lists };

    ghost view = { λ b. held b.state b.orders b.closed.entries b.moment };

    ghost invariant = { λ b. IsHeld b.state b.orders b.closed.entries b.moment };
}

impl Browser {
    ghost use Rattle.browser_driver.specs.Held.{none};

    /// A browser without windows.
    pub fn start(alloc: Global) -> Result<Browser, AllocError>
        ensures { IfOk result (λ b. b ≡ none) }
    {
        let state = SessionState::start(alloc)?;
        let closed = ClosedState::start(alloc)?;
        Ok(Browser {
            state,
            orders: Orders::new(alloc),
            closed,
            moment: 0,
            alloc,
        })
    }
}
