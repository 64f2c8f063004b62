//! What a user sees of closed entries.
ghost use Rattle.std.specs.Prelude.{◌≡◌, IfOk};
ghost use Rattle.closed_entries.specs.Shown.{shown};

use crate::entry::Entry;
use crate::state::ClosedState;
use std::alloc::{AllocError, Global};

/// All entries, the newest first, in memory of their own: it takes time and memory for all that the state holds.
pub fn shown(alloc: Global, state: &ClosedState) -> Result<Vec<Entry>, AllocError>
    ensures { IfOk result (λ v. v.items ≡ shown state.now) }
{
    let mut shown = Vec::with_capacity(alloc, state.entries().len())?;
    for entry in state.entries().iter().rev() {
        shown.push(entry.copy()?)?;
    }
    Ok(shown)
}
