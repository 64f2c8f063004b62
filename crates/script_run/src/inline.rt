//! A segment whose lines are acted on, written and synced by the thread that calls.
//! It is over when the call is.
ghost use Rattle.script_run.specs.SegmentWriting.{CanWrite, WritesSegment};

use crate::halt::Halt;
use crate::handling::handle_item;
use crate::run_state::RunState;
use crate::segments::{Ended, run_segment};
use session_disk::{Clock, SessionDisk};
use std::alloc::Global;
use writer_core::Item;

/// Acts on each line of a segment and writes what it asks, and then syncs both journals. It takes what the browser's and
/// the journals' calls take.
pub fn write_inline<'a, D: SessionDisk, C: Clock>(
    alloc: Global,
    mut state: RunState<D>,
    text: &'a [u8],
    clock: &mut C,
) -> (RunState<D>, Result<Ended<'a>, Halt>)
    requires can { CanWrite state text.now }
    ensures { WritesSegment state text.now result.0 result.1 }
{
    let ended = match run_segment(
        alloc,
        &mut state.writers,
        clock,
        &mut state.browser,
        state.number,
        text,
    ) {
        Ok(ended) => ended,
        Err(halt) => return (state, Err(halt)),
    };
    match handle_item(&mut state.writers, clock, Item::Sync) {
        Ok(()) => (state, Ok(ended)),
        Err(halt) => (state, Err(halt)),
    }
}
