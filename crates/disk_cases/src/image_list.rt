//! All that a crash may leave of a disk, as lists of what it keeps.

use case_files::CaseFault;
use session_disk::{DiskFile, Keep, MemoryDisk};
use std::alloc::{AllocError, Global};

/// No file whose images are tried is longer.
pub const LONGEST: u64 = 300;

/// Each image of a disk whose files, those that were removed among them, have these stamps.
pub fn images(
    alloc: Global,
    disk: &MemoryDisk,
    stamps: &[u64],
) -> Result<Vec<Vec<Keep>>, CaseFault> {
    let mut images = Vec::new(alloc);
    images.push(Vec::new(alloc))?;
    for stamp in stamps {
        let remains = remains(alloc, disk, *stamp)?;
        images = with_each(alloc, images.as_slice(), remains.as_slice())?;
    }
    Ok(images)
}

// Each image, with each of these beside it.
fn with_each(
    alloc: Global,
    images: &[Vec<Keep>],
    remains: &[Option<Keep>],
) -> Result<Vec<Vec<Keep>>, AllocError> {
    let mut longer = Vec::new(alloc);
    for image in images {
        for keep in remains {
            longer.push(with(alloc, image.as_slice(), *keep)?)?;
        }
    }
    Ok(longer)
}

fn with(alloc: Global, image: &[Keep], keep: Option<Keep>) -> Result<Vec<Keep>, AllocError> {
    let mut longer = Vec::from_slice(alloc, image)?;
    if let Some(keep) = keep {
        longer.push(keep)?;
    }
    Ok(longer)
}

// What a crash may leave of a file: so many bytes, or none of it.
fn remains(alloc: Global, disk: &MemoryDisk, stamp: u64) -> Result<Vec<Option<Keep>>, CaseFault> {
    match standing(disk.files(), stamp) {
        Some(file) => of_standing(alloc, file),
        None => of_removed(alloc, disk, stamp),
    }
}

fn standing(files: &[DiskFile], stamp: u64) -> Option<&DiskFile> {
    files.iter().find(|file| file.stamp == stamp)
}

fn of_standing(alloc: Global, file: &DiskFile) -> Result<Vec<Option<Keep>>, CaseFault> {
    let length = file.bytes.as_slice().len() as u64;
    if length > LONGEST {
        return Err(CaseFault::Malformed("a file is too long for its images"));
    }
    let mut found = Vec::new(alloc);
    if !file.settled {
        found.push(None)?;
    }
    for bytes in file.synced..=length {
        let stamp = file.stamp;
        found.push(Some(Keep { stamp, bytes }))?;
    }
    Ok(found)
}

// The lengths are tried in turn, since a disk doesn't list the files that were removed; they are those from one on.
fn of_removed(
    alloc: Global,
    disk: &MemoryDisk,
    stamp: u64,
) -> Result<Vec<Option<Keep>>, CaseFault> {
    let mut found = Vec::new(alloc);
    found.push(None)?;
    for bytes in 0..=LONGEST {
        let keep = Keep { stamp, bytes };
        if may_stand(alloc, disk, keep)? {
            found.push(Some(keep))?;
        } else if found.len() > 1 {
            break;
        }
    }
    Ok(found)
}

// Whether a crash may leave this file beside all that stand.
fn may_stand(alloc: Global, disk: &MemoryDisk, keep: Keep) -> Result<bool, AllocError> {
    let mut keeps = Vec::new(alloc);
    keeps.push(keep)?;
    for file in disk.files() {
        keeps.push(Keep {
            stamp: file.stamp,
            bytes: file.bytes.as_slice().len() as u64,
        })?;
    }
    Ok(disk.crash(keeps.as_slice())?.is_some())
}
