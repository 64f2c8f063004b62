//! What a user sees of a browser.
ghost use Rattle.std.specs.Prelude.{◌≡◌, IfOk};
ghost use Rattle.browser_model.specs.Pictures.{picture};

use crate::browser::Browser;
use closed_entries::{Entry, shown};
use item_list::Items;
use std::alloc::AllocError;
use window_state::{View, view};

/// The windows that a user sees, and what was closed, the newest first.
#[derive(Drop)]
pub struct Picture {
    pub view: View,
    pub closed: Items<Entry>,
}

impl Browser {
    /// The picture of the browser, in memory of its own: it takes time and memory for all that the browser holds.
    pub fn picture(&self) -> Result<Picture, AllocError>
        ensures view { IfOk result (λ p. p.view ≡ (picture self.now).view) }
        ensures closed { IfOk result (λ p. p.closed ≡ (picture self.now).closed) }
    {
        // The groups are in order.
        self.state.known();
        let view = view(self.alloc, &self.state)?;
        let closed = shown(self.alloc, &self.closed)?;
        Ok(Picture {
            view,
            closed: Items::from_vec(closed),
        })
    }
}
