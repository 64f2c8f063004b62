//! A disk over a folder of real files. It models none of their content: what a real folder holds between calls
//! is outside of what any proof here claims, so it is to be read with care.
ghost use Rattle.std.specs.Prelude.{◌≡◌, []};
ghost use Rattle.session_disk.specs.Causes.{DiskHasCause};

use crate::disk::SessionDisk;
use crate::failure::DiskError;
use crate::family::Family;
use crate::real::folder::Folder;
use std::alloc::AllocError;
use std::fs::File;
use std::rt::Files;

/// Chromium's session files of one family in one folder, which stands already. Nothing else in the folder is
/// opened, changed or followed.
///
/// A folder or a file that is missing, a file that is shorter than said or longer than 2^62 bytes, and a name in the
/// folder that isn't UTF-8 count as failures.
///
/// At most two files are open between calls, the one that was read last and the one that was made or added to last,
/// however many the folder holds; a `settle` opens the folder beside them. A listing takes time in the number of names
/// in the folder, and asks the system of each name that is later than those before it. A call on another file than the
/// one before it opens that file anew.
#[derive(Drop)]
pub struct FolderDisk<R: Files<File = File> + AllocGlobal + Clone + Drop> {
    folder: Folder<R>,
    failed: u64,
}

impl<R: Files<File = File> + AllocGlobal + Clone + Drop> FolderDisk<R> {
    pub fn new(rt: R, folder: &str, family: Family) -> Result<FolderDisk<R>, AllocError> {
        let folder = Folder::new(rt, folder, family)?;
        Ok(FolderDisk { folder, failed: 0 })
    }
}

impl<R: Files<File = File> + AllocGlobal + Clone + Drop> SessionDisk for FolderDisk<R> {
    ghost use Rattle.session_disk.specs.Recordings.{empty_moment};

    ghost modelled = { ⊥ };

    ghost history = { λ _. record { now = empty_moment; past = [] } };

    ghost failed = { λ disk. disk.failed };

    fn failures(&self) -> u64 {
        self.failed
    }

    fn newest_below(&mut self, below: Option<u64>) -> Result<Option<u64>, DiskError> {
        let newest = self.folder.newest_below(below);
        counted(&mut self.failed, newest)
    }

    fn length(&mut self, stamp: u64) -> Result<u64, DiskError> {
        let length = self.folder.length(stamp);
        counted(&mut self.failed, length)
    }

    fn read_at(&mut self, stamp: u64, offset: u64, into: &mut [u8]) -> Result<usize, DiskError> {
        let read = self.folder.read_at(stamp, offset, into);
        counted(&mut self.failed, read)
    }

    fn create(&mut self, stamp: u64) -> Result<(), DiskError> {
        let made = self.folder.create(stamp);
        counted(&mut self.failed, made)
    }

    fn append(&mut self, stamp: u64, bytes: &[u8]) -> Result<(), DiskError> {
        let added = self.folder.append(stamp, bytes);
        counted(&mut self.failed, added)
    }

    fn sync(&mut self, stamp: u64) -> Result<(), DiskError> {
        let synced = self.folder.sync(stamp);
        counted(&mut self.failed, synced)
    }

    fn remove(&mut self, stamp: u64) -> Result<(), DiskError> {
        let removed = self.folder.remove(stamp);
        counted(&mut self.failed, removed)
    }

    fn settle(&mut self) -> Result<(), DiskError> {
        let settled = self.folder.settle();
        counted(&mut self.failed, settled)
    }

    /// The number is kept nowhere.
    fn tell(&mut self, _n: u64) -> Result<(), DiskError> {
        Ok(())
    }
}

/// Counts a failure, and hands the outcome on.
fn counted<T: Drop>(failed: &mut u64, outcome: Result<T, DiskError>) -> Result<T, DiskError>
    ensures same { result ≡ outcome }
    ensures cause { DiskHasCause failed.old failed.new result }
{
    match outcome {
        Err(DiskError::Failed) => {
            *failed = failed.saturating_add(1);
            Err(DiskError::Failed)
        }
        other => other,
    }
}
