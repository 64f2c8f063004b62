//! Steps that read the files of a disk as a session, and clear them:
//!
//! - `choose`: the file that counts
//! - `recover`: what the files read to
//! - `clear STAMP`: removes the files that a fresh one under this stamp replaces

use crate::answers::said_number;
use case_files::CaseFault;
use compactor::SessionMachine;
use disk_cases::{described, number};
use file_rotation::{Chosen, Recovered, choose, clear_older, recover};
use session_disk::MemoryDisk;
use snss_frames::{Ending, Version};
use std::alloc::{AllocError, Global};

/// The answer to a step, and `None` where it is no such one.
pub(crate) fn answer(
    alloc: Global,
    disk: &mut MemoryDisk,
    verb: &str,
    rest: &str,
) -> Result<Option<String>, CaseFault> {
    Ok(Some(match verb {
        "choose" => chosen(alloc, disk)?,
        "recover" => recovered(alloc, disk)?,
        "clear" => clear(alloc, disk, number(rest)?)?,
        _ => return Ok(None),
    }))
}

fn chosen(alloc: Global, disk: &mut MemoryDisk) -> Result<String, AllocError> {
    match choose(alloc, disk) {
        Ok(chosen) => said_chosen(alloc, chosen),
        Err(fault) => format!(in alloc; "{fault}"),
    }
}

fn said_chosen(alloc: Global, chosen: Option<Chosen>) -> Result<String, AllocError> {
    match chosen {
        None => String::from_str(alloc, "none"),
        Some(chosen) => {
            let version = match chosen.version {
                Version::One => 1,
                Version::Three => 3,
            };
            format!(in alloc; "{} v{version}", chosen.stamp)
        }
    }
}

fn recovered(alloc: Global, disk: &mut MemoryDisk) -> Result<String, AllocError> {
    match recover::<SessionMachine, MemoryDisk>(alloc, disk) {
        Ok(found) => said_recovered(alloc, &found),
        Err(fault) => format!(in alloc; "{fault}"),
    }
}

fn said_recovered(alloc: Global, found: &Recovered<SessionMachine>) -> Result<String, AllocError> {
    let mut text = said_chosen(alloc, found.chosen)?;
    let greatest = said_number(alloc, found.greatest)?;
    let counts = format!(in alloc;
        ", greatest {}, frames {}",
        greatest.as_str(),
        found.commands
    )?;
    text.push_str(counts.as_str())?;
    if let Some(ending) = found.ending {
        text.push_str(said_ending(alloc, ending)?.as_str())?;
    }
    text.push_str("\n  ")?;
    text.push_str(described(alloc, &found.state)?.as_str())?;
    Ok(text)
}

fn said_ending(alloc: Global, ending: Ending) -> Result<String, AllocError> {
    match ending {
        Ending::Whole => String::from_str(alloc, ", whole"),
        Ending::CutSize { at } => format!(in alloc; ", size cut at {at}"),
        Ending::EmptyCommand { at } => format!(in alloc; ", size 0 at {at}"),
        Ending::CutBody { at, said, present } => {
            format!(in alloc; ", body cut at {at}, {present} of {said} bytes")
        }
    }
}

fn clear(alloc: Global, disk: &mut MemoryDisk, stamp: u64) -> Result<String, CaseFault> {
    if stamp >= 1 << 63 {
        return Err(CaseFault::Malformed("a stamp is below 2^63"));
    }
    Ok(match clear_older(disk, stamp) {
        Ok(()) => String::from_str(alloc, "ok")?,
        Err(fault) => format!(in alloc; "{fault}")?,
    })
}
