//! Commands are taken, one at a time: each waits in memory with others until there is no room or a sync comes. A fresh
//! file takes the place of one that is full.
ghost use Rattle.std.specs.Prelude.{◌≡◌, ◌+◌, ◌<◌, ◌≤◌, ◌++◌, ◌^◌, [], ◌∷◌, None, IfOk, IfErr, OnOk, OnErr};
ghost use Rattle.snss_frames.specs.Frame.{frame_bytes};
ghost use Rattle.fresh_files.specs.Fresh.{frame_of, frame_length, IsWritten};
ghost use Rattle.fresh_files.specs.Rotation.{IsMomentOf};
ghost use Rattle.log_writer.specs.Faults.{plain};
ghost use Rattle.log_writer.specs.Waiting.{place_in, waiting_in};
ghost use Rattle.log_writer.specs.Steps.{extent_before, is_due, Takes, Unstepped};
ghost use Rattle.log_writer.specs.Log.{WhereRuns, LeavesGood, HasForeign, GoesOn, MakesRoom};
ghost use Rattle.log_writer.specs.Answers.{Answers, Makes, Lasts, StepsBy, write_call, extend_call, restate_call, writes, extends, rotates};
ghost use Rattle.log_writer.specs.Room.{Fits, Drafted};

use crate::fault::{JournalFault, Refused};
use crate::journal::{Extent, Journal, Present};
use crate::limits::Limits;
use crate::pending::PENDING_ROOM;
use crate::syncing::{append, first_of};
use crate::waiting::{draft, place_for};
use fresh_files::fresh_file;
use machine_law::Machine;
use session_disk::{Clock, SessionDisk};
use std::alloc::AllocError;

impl<M: Machine, D: SessionDisk> Journal<M, D> {
    /// Takes one command. It waits until there is no room for more or the journal is synced; the last one that waits
    /// goes where this one covers it. Where the file is full, a fresh one takes its place first, which takes time and
    /// memory in the state. A refusal hands the command back.
    pub fn write<C: Clock>(
        &mut self,
        clock: &mut C,
        command: M::Command,
    ) -> Result<(), Refused<M::Command>>
        requires { M.is_command command }
        ensures answers { Answers (write_call self.old command) self.old self.new (plain result) }
        ensures later { Lasts self.old self.new }
        ensures stepped { StepsBy command self.old self.new (plain result) }
        ensures back { IfErr result (λ refused. refused.command ≡ command) }
        ensures makes { Makes (write_call self.old command)
            (IsMomentOf C.modelled (C.moment clock.old)) self.old self.new (plain result) }
        ensures follows { WhereRuns self.old
            (GoesOn self.old self.new (writes self.old command) (command ∷ []) (plain result)) }
        ensures foreign { WhereRuns self.old (HasForeign self.old self.new) }
        ensures crash { WhereRuns self.old (LeavesGood self.old self.new) }
    {
        let room = match self.make_room(clock, &command) {
            Ok(room) => room,
            Err(fault) => return Err(Refused { command, fault }),
        };
        match take::<M>(&mut self.present, room.extent, room.size, &command) {
            Ok(()) => {
                self.pending.accept(room.place, command);
                Ok(())
            }
            Err(_) => Err(Refused {
                command,
                fault: JournalFault::Memory,
            }),
        }
    }

    // Puts the frame of a command behind what waits and makes room for it, in the file and among what waits.
    fn make_room<C: Clock>(
        &mut self,
        clock: &mut C,
        command: &M::Command,
    ) -> Result<Room, JournalFault>
        requires { M.is_command command.now }
        ensures answers { Answers (write_call self.old command.now) self.old self.new result }
        ensures later { Lasts self.old self.new }
        ensures unstepped { Unstepped self.old.present self.new.present }
        ensures makes { Makes (write_call self.old command.now)
            (IsMomentOf C.modelled (C.moment clock.old)) self.old self.new result }
        ensures fits { IfOk result (Fits self.new command.now) }
        ensures written { OnOk result (IsWritten M.kind command.now) }
        ensures room { WhereRuns self.old
            (MakesRoom self.old self.new (writes self.old command.now) command.now result) }
        ensures crash { WhereRuns self.old (LeavesGood self.old self.new) }
    {
        if let Some(first) = self.failed {
            return Err(JournalFault::AlreadyFailed(first));
        }
        let size = draft::<M>(&mut self.pending, command)? as u64;
        let place = place_for::<M>(&self.pending, command);
        let extent = self.present.behind(self.pending.whole, place);
        if is_due(&self.limits, &extent, size) {
            self.restate(clock, command, size)
        } else {
            self.extend(
                command,
                Room {
                    place,
                    extent,
                    size,
                },
            )
        }
    }

    // Makes room for a command behind those that are there, which are appended where what waits would be too much.
    fn extend(&mut self, command: &M::Command, room: Room) -> Result<Room, JournalFault>
        requires works { self.old.failed ≡ None }
        requires written { IsWritten M.kind command.now }
        requires drafted { Drafted self.old command.now room }
        requires few { room.extent.after + 1 ≤ self.old.limits.every }
        ensures answers { Answers (extend_call self.old command.now) self.old self.new result }
        ensures later { Lasts self.old self.new }
        ensures unstepped { self.new.present ≡ self.old.present }
        ensures fits { IfOk result (Fits self.new command.now) }
        ensures room { WhereRuns self.old
            (MakesRoom self.old self.new (extends self.old command.now) command.now result) }
        ensures crash { WhereRuns self.old (LeavesGood self.old self.new) }
    {
        let needed = room.extent.length + room.size;
        if needed > self.limits.max_file {
            return Err(JournalFault::TooLong { needed });
        }
        if room.place + room.size as usize <= PENDING_ROOM {
            return Ok(room);
        }
        let stamp = self.present.stamp;
        if let Err(error) = append(&mut self.disk, stamp, &mut self.pending, room.place) {
            self.failed = first_of(&self.disk, error);
            return Err(error.into());
        }
        Ok(Room { place: 0, ..room })
    }

    // Makes room for a command by a fresh file of the present state.
    fn restate<C: Clock>(
        &mut self,
        clock: &mut C,
        command: &M::Command,
        size: u64,
    ) -> Result<Room, JournalFault>
        requires works { self.old.failed ≡ None }
        requires written { IsWritten M.kind command.now }
        requires size { size ≡ frame_length M.kind command.now }
        requires drafted { self.old.pending.bytes.items ≡
            (waiting_in self.old.pending).bytes ++ frame_bytes (frame_of M.kind command.now) }
        ensures answers { Answers (restate_call self.old command.now) self.old self.new result }
        ensures later { Lasts self.old self.new }
        ensures unstepped { Unstepped self.old.present self.new.present }
        ensures makes { Makes (restate_call self.old command.now)
            (IsMomentOf C.modelled (C.moment clock.old)) self.old self.new result }
        ensures fits { IfOk result (Fits self.new command.now) }
        ensures room { WhereRuns self.old
            (MakesRoom self.old self.new (rotates self.old command.now) command.now result) }
        ensures crash { WhereRuns self.old (LeavesGood self.old self.new) }
    {
        let bytes = fresh_file::<M>(self.alloc, &self.present.state)?;
        let needed = bytes.len() as u64 + size;
        if needed > self.limits.max_file {
            return Err(JournalFault::TooLong { needed });
        }
        self.replace(clock, &bytes)?;
        let extent = self.present.behind(0, 0);
        Ok(Room {
            place: 0,
            extent,
            size,
        })
    }
}

// Where the frame of a command goes: its place among what waits, what is in front of it, and its bytes.
#[derive(Clone, Copy)]
pub(crate) struct Room {
    pub(crate) place: usize,
    pub(crate) extent: Extent,
    pub(crate) size: u64,
}

// Whether a frame of this size makes a rotation due behind so much.
fn is_due(limits: &Limits, extent: &Extent, size: u64) -> bool
    requires few { extent.now.after ≤ limits.now.every }
    requires short { extent.now.length ≤ limits.now.max_file }
    requires small { size < 2 ^ 63 }
    ensures { result ≡ is_due limits.now extent.now size }
{
    extent.after > 0 && (extent.after + 1 > limits.every || extent.length + size > limits.max_file)
}

// Steps the state by a command whose frame has this size and comes behind so much.
fn take<M: Machine>(
    present: &mut Present<M::State>,
    extent: Extent,
    size: u64,
    command: &M::Command,
) -> Result<(), AllocError>
    requires command { M.is_command command.now }
    requires size { size ≡ frame_length M.kind command.now }
    requires few { extent.after ≤ 2 ^ 40 }
    requires short { extent.length + size ≤ 2 ^ 40 }
    ensures ok { OnOk result (Takes M.kind present.old present.new extent command.now) }
    ensures err { OnErr result (present.new ≡ present.old) }
{
    M::apply(&mut present.state, command)?;
    present.count = present.count.saturating_add(1);
    present.after = extent.after + 1;
    present.length = extent.length + size;
    Ok(())
}
