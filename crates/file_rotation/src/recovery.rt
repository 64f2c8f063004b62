//! Recovery: the state to which the files of a disk read.
ghost use Rattle.std.specs.Prelude.{◌≡◌, ◌⊎◌, ◌<◌, ◌≤◌, ◌^◌, ◌↔◌, ℕ, List, length, drop, None, IsTrue, IsSome, IfOk, IfSome, MatchOption, Contains};
ghost use Rattle.std.specs.Option.{ForSome};
ghost use Rattle.snss_frames.specs.Frame.{Frame, marker};
ghost use Rattle.snss_frames.specs.Reading.{Reads};
ghost use Rattle.session_disk.specs.Moments.{IsNewestBelow, bytes_at};
ghost use Rattle.session_disk.specs.Images.{as_it_reads};
ghost use Rattle.file_rotation.specs.Faults.{RotateHasCause};
ghost use Rattle.file_rotation.specs.Recovery.{IsLawful, NoneLawful, Recovers};
ghost use Rattle.file_rotation.specs.Choice.{IsChoice};
ghost use Rattle.file_rotation.specs.Replay.{CountsFrames, Replays, ReplaysChosen, ReplaysLawful, counts_as};

use crate::choice::Chosen;
use crate::fault::RotateFault;
use file_reading::{FileHead, FrameReader, read_head};
use machine_law::Machine;
use session_disk::SessionDisk;
use snss_frames::{Ending, FrameRef, Version};
use std::alloc::Global;

/// What the files of a disk read to.
#[derive(Drop)]
pub struct Recovered<M: Machine> {
    /// The state after all commands of the chosen file, before and after its marker; without one the start.
    pub state: M::State,
    pub chosen: Option<Chosen>,
    /// The greatest stamp of all files, lawful or not.
    pub greatest: Option<u64>,
    /// How many whole frames the chosen file has, the marker among them. It stops at 2^64 - 1.
    pub commands: u64,
    /// How the chosen file ends.
    pub ending: Option<Ending>,
}

// What the frames of a file come to.
#[derive(Drop)]
struct Replayed<M: Machine> {
    state: M::State,
    commands: u64,
    ending: Ending,
    is_marked: bool,
}

// A lawful file and what it reads to.
#[derive(Drop)]
struct LawfulFile<M: Machine> {
    chosen: Chosen,
    replayed: Replayed<M>,
}

/// Reads the files of a disk from the newest on up to the chosen one, each once and in pieces, and folds the commands of
/// each one by one; the state of a file that turns out to have no marker is dropped. It needs memory for one state and
/// one buffer, whatever a file's size. A refusal is the disk's own failure or want of memory.
pub fn recover<M: Machine, D: SessionDisk>(
    alloc: Global,
    disk: &mut D,
) -> Result<Recovered<M>, RotateFault>
    ensures in_range { IfOk result (λ r. IfSome r.greatest (λ stamp. stamp < 2 ^ 63)) }
    ensures chosen_in_range { IfOk result (λ r. IfSome r.chosen (λ chosen. chosen.stamp < 2 ^ 63)) }
    ensures state { D.modelled → IfOk result (λ r. Recovers M.kind (as_it_reads (D.history disk.old).now) r.state) }
    ensures chosen { D.modelled → IfOk result (λ r. IsChoice (as_it_reads (D.history disk.old).now) r.chosen) }
    ensures greatest { D.modelled → IfOk result (λ r. IsNewestBelow (D.history disk.old).now.standing None r.greatest) }
    ensures frames { D.modelled →
        IfOk result (λ r. CountsFrames (as_it_reads (D.history disk.old).now) r.commands r.ending) }
    ensures unchanged { D.history disk.new ≡ D.history disk.old }
    ensures cause { RotateHasCause (D.failed disk.old) (D.failed disk.new) result }
{
    let greatest = disk.newest_below(None)?;
    let Some(file) = newest_lawful::<M, D>(alloc, disk, greatest)? else {
        return Ok(Recovered {
            state: M::start(alloc)?,
            chosen: None,
            greatest,
            commands: 0,
            ending: None,
        });
    };
    let LawfulFile { chosen, replayed } = file;
    let Replayed {
        state,
        commands,
        ending,
        ..
    } = replayed;
    Ok(Recovered {
        state,
        chosen: Some(chosen),
        greatest,
        commands,
        ending: Some(ending),
    })
}

// The newest lawful file, given the newest of all, and what it reads to.
fn newest_lawful<M: Machine, D: SessionDisk>(
    alloc: Global,
    disk: &mut D,
    newest: Option<u64>,
) -> Result<Option<LawfulFile<M>>, RotateFault>
    requires in_range { ForSome newest (λ stamp. stamp < 2 ^ 63) }
    requires newest { D.modelled → IsNewestBelow (D.history disk.old).now.standing None newest }
    ensures in_range { IfOk result (λ found. IfSome found (λ file. file.chosen.stamp < 2 ^ 63)) }
    ensures found { D.modelled → IfOk result (λ found. MatchOption found
        (NoneLawful (as_it_reads (D.history disk.old).now))
        (λ file. ReplaysChosen M.kind (as_it_reads (D.history disk.old).now) file.chosen
        file.replayed.state file.replayed.commands file.replayed.ending)) }
    ensures unchanged { D.history disk.new ≡ D.history disk.old }
    ensures cause { RotateHasCause (D.failed disk.old) (D.failed disk.new) result }
{
    let mut next = newest;
    while let Some(stamp) = next {
        if let Some(file) = replay_lawful::<M, D>(alloc, disk, stamp)? {
            return Ok(Some(file));
        }
        next = disk.newest_below(Some(stamp))?;
    }
    Ok(None)
}

// What a file reads to, and `None` exactly for a file that isn't lawful.
fn replay_lawful<M: Machine, D: SessionDisk>(
    alloc: Global,
    disk: &mut D,
    stamp: u64,
) -> Result<Option<LawfulFile<M>>, RotateFault>
    requires in_range { stamp < 2 ^ 63 }
    requires stands { D.modelled → IsSome ((D.history disk.old).now.standing stamp) }
    ensures stamp { IfOk result (λ found. IfSome found (λ file. file.chosen.stamp ≡ stamp)) }
    ensures found { D.modelled → IfOk result (λ found. MatchOption found
        ((frames : List Frame) → IsLawful (bytes_at stamp (D.history disk.old).now) frames → ⊥)
        (λ file. ReplaysLawful M.kind (bytes_at stamp (D.history disk.old).now) file.chosen.version
        file.replayed.state file.replayed.commands file.replayed.ending)) }
    ensures unchanged { D.history disk.new ≡ D.history disk.old }
    ensures cause { RotateHasCause (D.failed disk.old) (D.failed disk.new) result }
{
    let FileHead::Known(version) = read_head(disk, stamp)? else {
        return Ok(None);
    };
    let replayed = replay::<M, D>(alloc, disk, stamp)?;
    if !is_lawful(version, replayed.is_marked) {
        return Ok(None);
    }
    Ok(Some(LawfulFile {
        chosen: Chosen { stamp, version },
        replayed,
    }))
}

// Whether a file of this version is lawful, with the marker or without it.
fn is_lawful(version: Version, is_marked: bool) -> bool
    ensures { result ≡ counts_as version is_marked }
{
    match version {
        Version::One => true,
        Version::Three => is_marked,
    }
}

// Folds all commands of a file with a header, from the start.
fn replay<M: Machine, D: SessionDisk>(
    alloc: Global,
    disk: &mut D,
    stamp: u64,
) -> Result<Replayed<M>, RotateFault>
    requires in_range { stamp < 2 ^ 63 }
    requires stands { D.modelled → IsSome ((D.history disk.old).now.standing stamp) }
    requires headed { D.modelled → 8 ≤ length (bytes_at stamp (D.history disk.old).now) }
    ensures replays { D.modelled → IfOk result (λ r.
        Replays M.kind (bytes_at stamp (D.history disk.old).now) r.state r.commands r.ending) }
    ensures marked { D.modelled → IfOk result (λ r. (frames : List Frame) (rest : List ℕ) →
        Reads (drop 8 (bytes_at stamp (D.history disk.old).now)) frames rest →
        (IsTrue r.is_marked ↔ Contains frames marker)) }
    ensures unchanged { D.history disk.new ≡ D.history disk.old }
    ensures cause { RotateHasCause (D.failed disk.old) (D.failed disk.new) result }
{
    let mut state = M::start(alloc)?;
    let mut commands: u64 = 0;
    let mut is_marked = false;
    let mut reader = FrameReader::new(alloc, disk, stamp)?;
    while let Some(frame) = reader.next(disk)? {
        is_marked = any_marker(is_marked, &frame);
        let command = M::read(alloc, frame.id, frame.payload)?;
        M::apply(&mut state, &command)?;
        commands = commands.saturating_add(1);
    }
    Ok(Replayed {
        state,
        commands,
        ending: reader.ending(),
        is_marked,
    })
}

// Whether a frame or one before it is the marker.
fn any_marker(is_marked: bool, frame: &FrameRef) -> bool
    ensures { IsTrue result ↔ (IsTrue is_marked ⊎
        (record { id = frame.now.id; payload = frame.now.payload.now } ≡ marker)) }
{
    is_marked || frame.is_marker()
}
