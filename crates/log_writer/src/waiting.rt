//! How frames come to wait, take the place of the last one, and leave when they were appended.
//! Only the drafting of a frame can find no memory.
ghost use Rattle.std.specs.Prelude.{◌≡◌, ◌+◌, ◌<◌, ◌≤◌, ◌++◌, [], length, take, drop, None, Some, IfOk, OnOk, OnErr};
ghost use Rattle.snss_frames.specs.Frame.{frame_bytes};
ghost use Rattle.fresh_files.specs.Fresh.{frame_of, frame_length, IsWritten};
ghost use Rattle.log_writer.specs.Waiting.{behind, last_behind, nothing, place_in, waiting_in};

use crate::pending::{LastFrame, PENDING_ROOM, Pending};
use fresh_files::push_frame;
use machine_law::Machine;
use snss_frames::{FRAME_HEAD, PAYLOAD_MAX};
use std::alloc::{AllocError, Global};

impl<C: Drop> Pending<C> {
    /// Nothing waits. The room is reserved, with that of a frame that isn't taken yet, so that none is later.
    pub(crate) fn new(alloc: Global) -> Result<Pending<C>, AllocError>
        ensures { IfOk result (λ pending. waiting_in pending ≡ nothing) }
    {
        Ok(Pending {
            bytes: Vec::with_capacity(alloc, PENDING_ROOM + FRAME_HEAD + PAYLOAD_MAX)?,
            whole: 0,
            last: None,
        })
    }

    /// What waits in front of a place.
    pub(crate) fn front(&self, place: usize) -> &[u8]
        requires { place ≤ self.now.whole }
        ensures { result.now ≡ take place (waiting_in self.now).bytes }
    {
        &self.bytes[..place]
    }

    /// The bytes in front of a place wait no more. A frame that isn't taken yet stays.
    pub(crate) fn leave(&mut self, place: usize)
        requires { place ≤ self.old.whole }
        ensures waiting { waiting_in self.new ≡ behind place (waiting_in self.old) }
        ensures bytes { self.new.bytes.items ≡ drop place self.old.bytes.items }
        ensures whole { self.new.whole + place ≡ self.old.whole }
    {
        self.bytes.drain(..place);
        self.whole -= place;
        self.last = last_behind(self.last.take(), place);
    }

    /// The frame that was drafted is taken, at a place among what waits; a frame that began there is gone.
    pub(crate) fn accept(&mut self, place: usize, command: C)
        requires place { place ≤ self.old.whole }
        requires drafted { self.old.whole < length self.old.bytes.items }
        ensures bytes { (waiting_in self.new).bytes ≡
            take place self.old.bytes.items ++ drop self.old.whole self.old.bytes.items }
        ensures last { self.new.last ≡ Some (record { place = place; command = command }) }
    {
        self.bytes.drain(place..self.whole);
        self.whole = self.bytes.len();
        self.last = Some(LastFrame { place, command });
    }
}

// The last frame, without so many bytes before it, unless it was among them.
fn last_behind<C: Drop>(last: Option<LastFrame<C>>, place: usize) -> Option<LastFrame<C>>
    ensures { result ≡ last_behind place last }
{
    let Some(mut last) = last else {
        return None;
    };
    if last.place < place {
        return None;
    }
    last.place -= place;
    Some(last)
}

/// Puts the frame of a command behind what waits, where it isn't taken yet, and says how many bytes it has. What stood
/// there goes.
pub(crate) fn draft<M: Machine>(
    pending: &mut Pending<M::Command>,
    command: &M::Command,
) -> Result<usize, AllocError>
    requires { M.is_command command.now }
    ensures waiting { waiting_in pending.new ≡ waiting_in pending.old }
    ensures drafted { OnOk result (pending.new.bytes.items ≡
        (waiting_in pending.old).bytes ++ frame_bytes (frame_of M.kind command.now)) }
    ensures whole { pending.new.whole ≡ pending.old.whole }
    ensures size { IfOk result (λ size. size ≡ frame_length M.kind command.now) }
    ensures written { OnOk result (IsWritten M.kind command.now) }
{
    pending.bytes.truncate(pending.whole);
    push_frame::<M>(command, &mut pending.bytes)?;
    Ok(pending.bytes.len() - pending.whole)
}

/// Where the frame of a command goes among what waits: in the place of the last frame, where it covers that, else
/// behind all.
pub(crate) fn place_for<M: Machine>(pending: &Pending<M::Command>, command: &M::Command) -> usize
    ensures { result ≡ place_in M.kind (waiting_in pending.now) command.now }
{
    if let Some(last) = &pending.last {
        if M::covers(&last.command, command) {
            return last.place;
        }
    }
    pending.whole
}
