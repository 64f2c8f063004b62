//! Steps that look at a disk:
//!
//! - `newest`, `newest BOUND`: the greatest stamp, below a bound where one is given
//! - `length STAMP`
//! - `read STAMP OFFSET COUNT`: at most COUNT bytes from an offset on
//! - `files`: a line each, with how many bytes are synced, and whether the name is settled
//! - `bytes STAMP`: all bytes
//! - `failures`: how many calls have failed
ghost use Rattle.std.specs.Prelude.{◌≤◌, length, IfOk};

use crate::answers::{said_error, said_number};
use case_files::{CaseFault, first_word};
use disk_cases::{number, stands, two_numbers, write_bytes};
use session_disk::{DiskFile, MemoryDisk, SessionDisk};
use std::alloc::{AllocError, Global};

const ABSENT: CaseFault = CaseFault::Malformed("no file has this stamp");

/// The answer to a look, and `None` where a step is none.
pub(crate) fn look(
    alloc: Global,
    disk: &mut MemoryDisk,
    verb: &str,
    rest: &str,
) -> Result<Option<String>, CaseFault> {
    Ok(Some(match verb {
        "newest" => newest(alloc, disk, rest)?,
        "length" => length(alloc, disk, number(rest)?)?,
        "read" => read(alloc, disk, rest)?,
        "files" => files(alloc, disk.files())?,
        "bytes" => bytes(alloc, disk.files(), number(rest)?)?,
        "failures" => said_number(alloc, Some(disk.failures()))?,
        _ => return Ok(None),
    }))
}

fn newest(alloc: Global, disk: &mut MemoryDisk, bound: &str) -> Result<String, CaseFault> {
    let bound = match bound {
        "" => None,
        bound => Some(number(bound)?),
    };
    match disk.newest_below(bound) {
        Ok(stamp) => Ok(said_number(alloc, stamp)?),
        Err(error) => Ok(String::from_str(alloc, said_error(error))?),
    }
}

fn length(alloc: Global, disk: &mut MemoryDisk, stamp: u64) -> Result<String, CaseFault> {
    if !stands(disk, stamp) {
        return Err(ABSENT);
    }
    match disk.length(stamp) {
        Ok(length) => Ok(said_number(alloc, Some(length))?),
        Err(error) => Ok(String::from_str(alloc, said_error(error))?),
    }
}

fn read(alloc: Global, disk: &mut MemoryDisk, text: &str) -> Result<String, CaseFault> {
    let (stamp, place) = first_word(text);
    let stamp = number(stamp)?;
    let (offset, count) = two_numbers(place)?;
    if count > 1000 {
        return Err(CaseFault::Malformed("at most 1000 bytes are read"));
    }
    let mut piece = vec![in alloc; 0u8; count as usize]?;
    let read = read_piece(disk, stamp, offset, piece.as_mut_slice())?;
    match read {
        Ok(count) => Ok(write_bytes(alloc, &piece[..count])?),
        Err(said) => Ok(String::from_str(alloc, said)?),
    }
}

// How many bytes came into the piece, or why none did.
fn read_piece(
    disk: &mut MemoryDisk,
    stamp: u64,
    offset: u64,
    piece: &mut [u8],
) -> Result<Result<usize, &'static str>, CaseFault>
    ensures { IfOk result (λ read. IfOk read (λ count. count ≤ length piece.old)) }
{
    if !stands(disk, stamp) {
        return Err(ABSENT);
    }
    match disk.read_at(stamp, offset, piece) {
        Ok(count) => Ok(Ok(count)),
        Err(error) => Ok(Err(said_error(error))),
    }
}

fn files(alloc: Global, files: &[DiskFile]) -> Result<String, AllocError> {
    let mut text = String::new(alloc);
    if files.is_empty() {
        text.push_str("none")?;
    }
    for file in files {
        text.push_str("\n  ")?;
        text.push_str(described(alloc, file)?.as_str())?;
    }
    Ok(text)
}

fn described(alloc: Global, file: &DiskFile) -> Result<String, AllocError> {
    let length = file.bytes.as_slice().len();
    let name = if file.settled {
        "settled"
    } else {
        "not settled"
    };
    format!(in alloc;
        "{}: {length} bytes, {} synced, {name}",
        file.stamp, file.synced
    )
}

fn bytes(alloc: Global, files: &[DiskFile], stamp: u64) -> Result<String, CaseFault> {
    for file in files {
        if file.stamp == stamp {
            return Ok(write_bytes(alloc, file.bytes.as_slice())?);
        }
    }
    Err(ABSENT)
}
