//! The kind of a file: how its header reads, and whether it has the marker.
ghost use Rattle.std.specs.Prelude.{◌≡◌, ◌<◌, ◌^◌, ◌++◌, IsSome, IfOk, OnOk};
ghost use Rattle.session_disk.specs.Causes.{DiskHasCause};
ghost use Rattle.session_disk.specs.Moments.{bytes_at};
ghost use Rattle.file_reports.specs.FileReading.{FileReading, IsReading};
ghost use Rattle.file_reports.specs.FileKinds.{kind_of, is_lawful, kind_words, short_words, fault_words};

use crate::numbers::{put_decimal, put_hexadecimal};
use file_reading::{FileHead, read_head};
use file_rotation::is_marked;
use session_disk::{DiskError, SessionDisk};
use snss_frames::{HeaderFault, Version};
use std::alloc::{AllocError, Global};

/// What a file is, by its header and its frames.
#[derive(Clone, Copy, Debug, PartialEq, Eq)]
pub enum FileKind {
    /// So many bytes, fewer than the eight of a header.
    Short(u64),
    /// The header is there and isn't read.
    Foreign(HeaderFault),
    /// Version 1, which has no marker.
    One,
    /// Version 3, and whether the initial-state marker is among its whole frames.
    Three { marked: bool },
}

impl FileKind {
    /// The kind of a file. Its head is read, and of version 3 what stands up to the marker, through one buffer.
    pub fn of<D: SessionDisk>(
        alloc: Global,
        disk: &mut D,
        stamp: u64,
    ) -> Result<FileKind, DiskError>
        requires in_range { stamp < 2 ^ 63 }
        requires stands { D.modelled → IsSome ((D.history disk.old).now.standing stamp) }
        ensures kind { D.modelled → (reading : FileReading) →
            IsReading (bytes_at stamp (D.history disk.old).now) reading →
            IfOk result (λ kind. kind ≡ kind_of reading) }
        ensures unchanged { D.history disk.new ≡ D.history disk.old }
        ensures cause { DiskHasCause (D.failed disk.old) (D.failed disk.new) result }
    {
        match read_head(disk, stamp)? {
            FileHead::Short(length) => Ok(FileKind::Short(length)),
            FileHead::Foreign(fault) => Ok(FileKind::Foreign(fault)),
            FileHead::Known(Version::One) => Ok(FileKind::One),
            FileHead::Known(Version::Three) => {
                let marked = is_marked(alloc, disk, stamp)?;
                Ok(FileKind::Three { marked })
            }
        }
    }

    /// Whether the file counts as a session: version 1, or version 3 with the marker.
    pub fn is_lawful(self) -> bool
        ensures { result ≡ is_lawful self }
    {
        match self {
            FileKind::Short(_) | FileKind::Foreign(_) => false,
            FileKind::One => true,
            FileKind::Three { marked } => marked,
        }
    }

    /// Appends the kind in words: `short` and the number of bytes, `bad-signature` and the number that stands there in
    /// eight hexadecimal digits, `encrypted` or `unknown-version` and the version, `v1`, `v3 marked` or `v3 unmarked`.
    /// After an `Err`, which comes for want of memory alone, some of the words may have been appended.
    pub fn put(self, out: &mut Vec<u8>) -> Result<(), AllocError>
        ensures { OnOk result (out.new.items ≡ out.old.items ++ kind_words self) }
    {
        match self {
            FileKind::Short(length) => put_short(length, out)?,
            FileKind::Foreign(fault) => put_fault(fault, out)?,
            FileKind::One => out.extend_from_slice(b"v1")?,
            FileKind::Three { marked: true } => out.extend_from_slice(b"v3 marked")?,
            FileKind::Three { marked: false } => out.extend_from_slice(b"v3 unmarked")?,
        }
        Ok(())
    }
}

pub(crate) fn put_short(length: u64, out: &mut Vec<u8>) -> Result<(), AllocError>
    ensures { OnOk result (out.new.items ≡ out.old.items ++ short_words length) }
{
    out.extend_from_slice(b"short ")?;
    put_decimal(length, out)?;
    Ok(())
}

pub(crate) fn put_fault(fault: HeaderFault, out: &mut Vec<u8>) -> Result<(), AllocError>
    ensures { OnOk result (out.new.items ≡ out.old.items ++ fault_words fault) }
{
    match fault {
        HeaderFault::BadSignature(signature) => {
            out.extend_from_slice(b"bad-signature ")?;
            put_hexadecimal(signature, out)?;
        }
        HeaderFault::Encrypted(version) => {
            out.extend_from_slice(b"encrypted ")?;
            put_decimal(version as u64, out)?;
        }
        HeaderFault::UnknownVersion(version) => {
            out.extend_from_slice(b"unknown-version ")?;
            put_decimal(version as u64, out)?;
        }
    }
    Ok(())
}
