//! Disks at rest: safe files under their stamps.
ghost use Rattle.std.specs.Prelude.{◌≡◌, OnOk, IfOk, is_some};
ghost use Rattle.session_disk.specs.DiskFiles.{standing_in};
ghost use Rattle.session_disk.specs.MemoryDisks.{history_of};
ghost use Rattle.session_disk.specs.Moments.{IsAtRest};

use crate::bytes::read_bytes;
use crate::number_words::number;
use case_files::{CaseFault, first_word};
use session_disk::{DiskFile, MemoryDisk};
use std::alloc::Global;

/// A file with its bytes.
#[derive(Drop)]
pub struct SafeFile {
    pub stamp: u64,
    pub bytes: Vec<u8>,
}

/// The file of a line `add STAMP BYTES`, and `None` of another line.
pub fn read_file(alloc: Global, line: &str) -> Result<Option<SafeFile>, CaseFault> {
    match line.strip_prefix("add ") {
        None => Ok(None),
        Some(rest) => {
            let (stamp, bytes) = first_word(rest);
            let stamp = number(stamp)?;
            let bytes = read_bytes(alloc, bytes)?;
            Ok(Some(SafeFile { stamp, bytes }))
        }
    }
}

/// The files that the first steps of a case add. `line` is that of the first step, and becomes that of the first other
/// one.
pub fn read_files(alloc: Global, steps: &str, line: &mut u64) -> Result<Vec<SafeFile>, CaseFault> {
    let mut files = Vec::new(alloc);
    for step in steps.lines() {
        let Some(file) = read_file(alloc, step)? else {
            return Ok(files);
        };
        if has(files.as_slice(), file.stamp) {
            return Err(CaseFault::Malformed("a file has this stamp"));
        }
        files.push(file)?;
        *line = line.saturating_add(1);
    }
    Ok(files)
}

fn has(files: &[SafeFile], stamp: u64) -> bool {
    files.iter().any(|file| file.stamp == stamp)
}

/// A disk at rest with these files.
pub fn resting(alloc: Global, files: &[SafeFile]) -> Result<MemoryDisk, CaseFault>
    ensures at_rest { IfOk result (λ disk. IsAtRest (history_of disk).now) }
{
    let mut disk = MemoryDisk::empty(alloc)?;
    for file in files {
        add(&mut disk, file.stamp, file.bytes.as_slice())?;
    }
    Ok(disk)
}

// Adds a safe file under a stamp that is free.
fn add(disk: &mut MemoryDisk, stamp: u64, bytes: &[u8]) -> Result<(), CaseFault>
    requires at_rest { IsAtRest (history_of disk.old).now }
    requires untold { (history_of disk.old).now.told ≡ 0 }
    ensures at_rest { OnOk result (IsAtRest (history_of disk.new).now) }
    ensures untold { OnOk result ((history_of disk.new).now.told ≡ 0) }
{
    if stamp >= 1 << 63 || stands(disk, stamp) {
        return Err(CaseFault::Malformed("a file has this stamp, or none may"));
    }
    disk.add_file(stamp, bytes)?;
    Ok(())
}

/// Whether a file has this stamp.
pub fn stands(disk: &MemoryDisk, stamp: u64) -> bool
    ensures { result ≡ is_some ((history_of disk.now).now.standing stamp) }
{
    is_among(disk.files(), stamp)
}

fn is_among(files: &[DiskFile], stamp: u64) -> bool
    ensures { result ≡ is_some (standing_in files.now stamp) }
{
    for file in files {
        if file.stamp == stamp {
            return true;
        }
    }
    false
}

/// The files of a disk, each with all its bytes, as a program that ends leaves them.
pub fn left(alloc: Global, files: &[DiskFile]) -> Result<Vec<SafeFile>, CaseFault> {
    let mut left = Vec::new(alloc);
    for file in files {
        let bytes = Vec::from_slice(alloc, file.bytes.as_slice())?;
        let stamp = file.stamp;
        left.push(SafeFile { stamp, bytes })?;
    }
    Ok(left)
}
