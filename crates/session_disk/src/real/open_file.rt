//! A session file that is open, and its opening: a name may change its meaning between two calls of the system, an open
//! file doesn't.
ghost use Rattle.std.specs.Prelude.{IsSome, IsTrue};

use crate::failure::DiskError;
use std::fs::{self, File, Metadata, OpenOptions};
use std::io;
use std::os::unix::fs::{MetadataExt, OpenOptionsExt};
use std::rt::Files;

#[derive(Drop)]
pub(crate) struct OpenFile {
    pub(crate) stamp: u64,
    pub(crate) file: File,
}

/// Whether the file under this stamp is the one that is open.
pub(crate) fn is_open(held: &Option<OpenFile>, stamp: u64) -> bool
    ensures { IsTrue result → IsSome held.now }
{
    match held {
        Some(open) => open.stamp == stamp,
        None => false,
    }
}

/// The file that is open.
pub(crate) fn file_of(held: &Option<OpenFile>) -> &File
    requires { IsSome held.now }
{
    match held {
        Some(open) => &open.file,
        None => unreachable!(),
    }
}

/// Opens the regular file that stands under a name, to read it, or to read it and add to its end. What else stands
/// there counts as a failure, and is neither followed nor kept open.
pub(crate) fn open_regular<R: Files<File = File>>(
    rt: &R,
    path: &str,
    appends: bool,
) -> Result<File, DiskError> {
    let seen = match fs::symlink_metadata(rt, path) {
        Ok(seen) => seen,
        Err(error) => return Err(fault_of(&error)),
    };
    if !seen.is_file() {
        return Err(DiskError::Failed);
    }
    let file = match OpenOptions::new().read(true).append(appends).open(rt, path) {
        Ok(file) => file,
        Err(error) => return Err(fault_of(&error)),
    };
    // Another file may have come under the name since it was looked at.
    match file.metadata() {
        Ok(opened) if opened.is_file() && is_same(&opened, &seen) => Ok(file),
        _ => Err(DiskError::Failed),
    }
}

/// Whether two looks were at one file of one device.
fn is_same(one: &Metadata, other: &Metadata) -> bool {
    one.dev() == other.dev() && one.ino() == other.ino()
}

/// Makes an empty file that only its owner may read and write, where nothing stands under the name.
pub(crate) fn create_regular<R: Files<File = File>>(rt: &R, path: &str) -> Result<File, DiskError> {
    let made = OpenOptions::new()
        .read(true)
        .append(true)
        .create_new(true)
        .mode(0o600)
        .open(rt, path);
    match made {
        Ok(file) => Ok(file),
        Err(_) => Err(DiskError::Failed),
    }
}

/// What a refused opening or listing counts as.
pub(crate) fn fault_of(error: &io::Error) -> DiskError {
    if error.kind() == io::ErrorKind::OutOfMemory {
        DiskError::Memory
    } else {
        DiskError::Failed
    }
}
