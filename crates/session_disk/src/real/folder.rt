//! The calls of a folder of session files, over the system's files. None of them counts its failures.
ghost use Rattle.std.specs.Prelude.{◌<◌, ◌≤◌, ◌^◌, ◌↔◌, length, IfOk, IfSome, IsTrue};

use crate::disk::LONGEST;
use crate::failure::DiskError;
use crate::family::{Family, file_name, stamp_of};
use crate::real::open_file::{OpenFile, create_regular, fault_of, file_of, is_open, open_regular};
use std::alloc::AllocError;
use std::fs::{self, File};
use std::io::Write;
use std::os::unix::fs::FileExt;
use std::rt::Files;

#[derive(Drop)]
pub(crate) struct Folder<R: Files<File = File> + AllocGlobal + Clone + Drop> {
    rt: R,
    name: String,
    family: Family,
    /// The file that was read last, where it isn't the one that is written. It is open for reading alone, so that a
    /// folder without leave to write can be read.
    read: Option<OpenFile>,
    /// The file that was made or added to last.
    written: Option<OpenFile>,
    measured: Option<Measured>,
}

/// The file whose length was answered last, and that length.
#[derive(Clone, Copy)]
struct Measured {
    stamp: u64,
    length: u64,
}

impl<R: Files<File = File> + AllocGlobal + Clone + Drop> Folder<R> {
    pub(crate) fn new(rt: R, name: &str, family: Family) -> Result<Folder<R>, AllocError> {
        let name = String::from_str(rt.alloc(), name)?;
        Ok(Folder {
            rt,
            name,
            family,
            read: None,
            written: None,
            measured: None,
        })
    }

    /// One pass over the folder. A name without a stamp of the family, and what is no regular file, is passed over.
    pub(crate) fn newest_below(&self, below: Option<u64>) -> Result<Option<u64>, DiskError>
        ensures in_range { IfOk result (λ newest. IfSome newest (λ stamp. stamp < 2 ^ 63)) }
        ensures within { IfOk result (λ newest. IfSome newest (λ stamp. IfSome below (λ bound. stamp < bound))) }
    {
        let entries = match fs::read_dir(&self.rt, self.name.as_str()) {
            Ok(entries) => entries,
            Err(error) => return Err(fault_of(&error)),
        };
        let mut newest: Option<u64> = None;
        for entry in entries {
            let entry = match entry {
                Ok(entry) => entry,
                Err(error) => return Err(fault_of(&error)),
            };
            let Some(stamp) = stamp_of(self.family, entry.file_name()) else {
                continue;
            };
            if !is_below(stamp, below) || !is_later(stamp, newest) {
                continue;
            }
            match entry.metadata() {
                Ok(metadata) => {
                    if metadata.is_file() {
                        newest = Some(stamp);
                    }
                }
                Err(error) => return Err(fault_of(&error)),
            }
        }
        Ok(newest)
    }

    pub(crate) fn length(&mut self, stamp: u64) -> Result<u64, DiskError>
        requires { stamp < 2 ^ 63 }
        ensures { IfOk result (λ n. n ≤ 2 ^ 62) }
    {
        let Ok(metadata) = self.readable(stamp)?.metadata() else {
            return Err(DiskError::Failed);
        };
        let length = metadata.len();
        if length > LONGEST {
            return Err(DiskError::Failed);
        }
        self.measured = Some(Measured { stamp, length });
        Ok(length)
    }

    /// An end before the length that was answered is a failure.
    pub(crate) fn read_at(
        &mut self,
        stamp: u64,
        offset: u64,
        into: &mut [u8],
    ) -> Result<usize, DiskError>
        requires { stamp < 2 ^ 63 }
        ensures { IfOk result (λ n. n ≤ length into.old) }
    {
        let Ok(n) = self.readable(stamp)?.read_at(into, offset) else {
            return Err(DiskError::Failed);
        };
        if n == 0 && !into.is_empty() && is_before_end(self.measured, stamp, offset) {
            return Err(DiskError::Failed);
        }
        Ok(n)
    }

    /// The file holds the addresses of the pages that a person has open, so only its owner may read it. Whatever the
    /// refusal, it may have been made, so each counts as a failure.
    pub(crate) fn create(&mut self, stamp: u64) -> Result<(), DiskError>
        requires { stamp < 2 ^ 63 }
    {
        let path = self.path(stamp)?;
        self.written = None;
        let file = create_regular(&self.rt, path.as_str())?;
        self.written = Some(OpenFile { stamp, file });
        Ok(())
    }

    pub(crate) fn append(&mut self, stamp: u64, bytes: &[u8]) -> Result<(), DiskError>
        requires { stamp < 2 ^ 63 }
    {
        let mut file = self.writable(stamp)?;
        match file.write_all(bytes) {
            Ok(()) => Ok(()),
            Err(_) => Err(DiskError::Failed),
        }
    }

    pub(crate) fn sync(&mut self, stamp: u64) -> Result<(), DiskError>
        requires { stamp < 2 ^ 63 }
    {
        match self.readable(stamp)?.sync_data() {
            Ok(()) => Ok(()),
            Err(_) => Err(DiskError::Failed),
        }
    }

    pub(crate) fn remove(&mut self, stamp: u64) -> Result<(), DiskError>
        requires { stamp < 2 ^ 63 }
    {
        let path = self.path(stamp)?;
        self.close(stamp);
        match fs::remove_file(&self.rt, path.as_str()) {
            Ok(()) => Ok(()),
            Err(_) => Err(DiskError::Failed),
        }
    }

    /// Syncs the folder itself, which holds the names.
    pub(crate) fn settle(&self) -> Result<(), DiskError> {
        let Ok(folder) = File::open(&self.rt, self.name.as_str()) else {
            return Err(DiskError::Failed);
        };
        match folder.sync_all() {
            Ok(()) => Ok(()),
            Err(_) => Err(DiskError::Failed),
        }
    }

    /// The file under a stamp, which is opened for reading where it isn't open.
    fn readable(&mut self, stamp: u64) -> Result<&File, DiskError>
        requires { stamp < 2 ^ 63 }
    {
        if is_open(&self.written, stamp) {
            return Ok(file_of(&self.written));
        }
        if !is_open(&self.read, stamp) {
            let path = self.path(stamp)?;
            self.read = None;
            let file = open_regular(&self.rt, path.as_str(), false)?;
            self.read = Some(OpenFile { stamp, file });
        }
        Ok(file_of(&self.read))
    }

    /// The file under a stamp, which is opened where it isn't open so that bytes can be added.
    fn writable(&mut self, stamp: u64) -> Result<&File, DiskError>
        requires { stamp < 2 ^ 63 }
    {
        if !is_open(&self.written, stamp) {
            let path = self.path(stamp)?;
            self.close(stamp);
            self.written = None;
            let file = open_regular(&self.rt, path.as_str(), true)?;
            self.written = Some(OpenFile { stamp, file });
        }
        Ok(file_of(&self.written))
    }

    fn close(&mut self, stamp: u64) {
        if is_open(&self.read, stamp) {
            self.read = None;
        }
        if is_open(&self.written, stamp) {
            self.written = None;
        }
    }

    fn path(&self, stamp: u64) -> Result<String, AllocError>
        requires { stamp < 2 ^ 63 }
    {
        let name = file_name(self.rt.alloc(), self.family, stamp)?;
        let mut path = self.name.clone()?;
        if !path.is_empty() && !path.ends_with('/') {
            path.push('/')?;
        }
        path.push_str(name.as_str())?;
        Ok(path)
    }
}

fn is_below(stamp: u64, below: Option<u64>) -> bool
    ensures { IsTrue result ↔ IfSome below (λ bound. stamp < bound) }
{
    match below {
        None => true,
        Some(bound) => stamp < bound,
    }
}

fn is_later(stamp: u64, than: Option<u64>) -> bool {
    match than {
        None => true,
        Some(than) => stamp > than,
    }
}

/// Whether an offset is before the end of a file, as far as its length was answered.
fn is_before_end(measured: Option<Measured>, stamp: u64, offset: u64) -> bool {
    match measured {
        Some(measured) => measured.stamp == stamp && offset < measured.length,
        None => false,
    }
}
