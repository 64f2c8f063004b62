//! The files of a family in a case, from run to run.

use crate::noted_disk::NotedDisk;
use case_files::CaseFault;
use disk_cases::{SafeFile, left, number, read_keeps, resting};
use session_disk::Failure;
use std::alloc::Global;

/// The files that the next run finds, the calls of the disk that are to fail in it, and the disk as the last run left
/// it.
#[derive(Drop)]
pub(crate) struct Side {
    pub(crate) files: Vec<SafeFile>,
    pub(crate) failures: Vec<Failure>,
    last: Option<NotedDisk>,
}

impl Side {
    /// With these files.
    pub(crate) fn new(alloc: Global, files: Vec<SafeFile>) -> Side {
        Side {
            files,
            failures: Vec::new(alloc),
            last: None,
        }
    }

    /// A disk with the files, some of whose calls fail.
    pub(crate) fn disk(&self, alloc: Global, failures: &[Failure]) -> Result<NotedDisk, CaseFault> {
        let mut disk = resting(alloc, self.files.as_slice())?;
        disk.fail(failures)?;
        Ok(NotedDisk::new(disk))
    }

    /// Takes what a run left, as the files that the next one finds.
    pub(crate) fn take(&mut self, alloc: Global, noted: NotedDisk) -> Result<(), CaseFault> {
        self.files = left(alloc, noted.disk.files())?;
        self.failures.clear();
        self.last = Some(noted);
        Ok(())
    }

    /// The disk as the last run left it.
    pub(crate) fn last(&self) -> Result<&NotedDisk, CaseFault> {
        match &self.last {
            Some(noted) => Ok(noted),
            None => Err(CaseFault::Malformed("there was no run")),
        }
    }

    /// The bytes of a file.
    pub(crate) fn file(&self, stamp: &str) -> Result<&[u8], CaseFault> {
        let stamp = number(stamp)?;
        for file in self.files.as_slice() {
            if file.stamp == stamp {
                return Ok(file.bytes.as_slice());
            }
        }
        Err(CaseFault::Malformed("no file has this stamp"))
    }

    /// Takes what a crash leaves of the disk, and answers whether it can leave that.
    pub(crate) fn crash(&mut self, alloc: Global, text: &str) -> Result<bool, CaseFault> {
        let keeps = read_keeps(alloc, text)?;
        match self.last()?.disk.crash(keeps.as_slice())? {
            None => Ok(false),
            Some(crashed) => {
                self.take(alloc, NotedDisk::new(crashed))?;
                Ok(true)
            }
        }
    }
}
