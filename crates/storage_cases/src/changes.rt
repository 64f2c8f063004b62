//! Steps that change a disk:
//!
//! - `create STAMP`, `append STAMP BYTES`, `sync STAMP`, `remove STAMP`
//! - `settle`
//! - `tell N`

use crate::answers::said;
use case_files::{CaseFault, first_word};
use disk_cases::{number, read_bytes, stands};
use session_disk::{DiskError, MemoryDisk, SessionDisk};
use std::alloc::Global;

const ABSENT: CaseFault = CaseFault::Malformed("no file has this stamp");

/// Makes the call that a step names, and answers what it answered.
pub(crate) fn change(
    alloc: Global,
    disk: &mut MemoryDisk,
    verb: &str,
    rest: &str,
) -> Result<&'static str, CaseFault> {
    match verb {
        "create" => Ok(said(create(disk, number(rest)?)?)),
        "append" => Ok(said(append(alloc, disk, rest)?)),
        "sync" => Ok(said(sync(disk, number(rest)?)?)),
        "remove" => Ok(said(remove(disk, number(rest)?)?)),
        "settle" => Ok(said(disk.settle())),
        "tell" => Ok(said(disk.tell(number(rest)?))),
        _ => Err(CaseFault::Malformed("there is no such step")),
    }
}

fn create(disk: &mut MemoryDisk, stamp: u64) -> Result<Result<(), DiskError>, CaseFault> {
    if stamp >= 1 << 63 || stands(disk, stamp) {
        return Err(CaseFault::Malformed("a file has this stamp, or none may"));
    }
    Ok(disk.create(stamp))
}

fn append(
    alloc: Global,
    disk: &mut MemoryDisk,
    text: &str,
) -> Result<Result<(), DiskError>, CaseFault> {
    let (stamp, bytes) = first_word(text);
    let stamp = number(stamp)?;
    let bytes = read_bytes(alloc, bytes)?;
    append_bytes(disk, stamp, bytes.as_slice())
}

fn append_bytes(
    disk: &mut MemoryDisk,
    stamp: u64,
    bytes: &[u8],
) -> Result<Result<(), DiskError>, CaseFault> {
    if !stands(disk, stamp) {
        return Err(ABSENT);
    }
    Ok(disk.append(stamp, bytes))
}

fn sync(disk: &mut MemoryDisk, stamp: u64) -> Result<Result<(), DiskError>, CaseFault> {
    if !stands(disk, stamp) {
        return Err(ABSENT);
    }
    Ok(disk.sync(stamp))
}

fn remove(disk: &mut MemoryDisk, stamp: u64) -> Result<Result<(), DiskError>, CaseFault> {
    if !stands(disk, stamp) {
        return Err(ABSENT);
    }
    Ok(disk.remove(stamp))
}
