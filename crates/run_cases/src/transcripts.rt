//! What is seen of a run as text: the lines that it printed, its exit code, the files that stand, and what the disks
//! were told.

use crate::noted_disk::NotedDisk;
use crate::runs::Outcome;
use case_files::CaseFault;
use session_disk::{DiskFile, SessionDisk};
use std::alloc::{AllocError, Global};
use std::str;

/// The transcript of a run with what it left of the session, each line behind a line feed and two spaces.
pub(crate) fn transcript(alloc: Global, outcome: &Outcome) -> Result<String, CaseFault> {
    let mut text = String::new(alloc);
    put_printed(&mut text, outcome.printed.as_slice())?;
    let exit = format!(in alloc; "\n  exit {}", outcome.status.code())?;
    text.push_str(exit.as_str())?;
    text.push_str(left_text(alloc, &outcome.session)?.as_str())?;
    Ok(text)
}

/// What a run left of a family: its files, and what the disk was told.
pub(crate) fn left_text(alloc: Global, noted: &NotedDisk) -> Result<String, AllocError> {
    let mut text = String::new(alloc);
    put_files(&mut text, noted.disk.files())?;
    text.push_str(notes(alloc, noted)?.as_str())?;
    Ok(text)
}

fn put_printed(text: &mut String, printed: &[u8]) -> Result<(), CaseFault> {
    let Ok(printed) = str::from_utf8(printed) else {
        return Err(CaseFault::Malformed("the run printed what is no text"));
    };
    for line in printed.split_inclusive('\n') {
        text.push_str("\n  ")?;
        text.push_str(line.strip_suffix("\n").unwrap_or("a line without its end"))?;
    }
    Ok(())
}

fn put_files(text: &mut String, files: &[DiskFile]) -> Result<(), AllocError> {
    for file in files {
        let line = described(*text.allocator(), file)?;
        text.push_str(line.as_str())?;
    }
    Ok(())
}

fn described(alloc: Global, file: &DiskFile) -> Result<String, AllocError> {
    let length = file.bytes.as_slice().len() as u64;
    let mut text = format!(in alloc; "\n  file {}: {length} bytes", file.stamp)?;
    if file.synced < length {
        let synced = format!(in alloc; ", {} synced", file.synced)?;
        text.push_str(synced.as_str())?;
    }
    if !file.settled {
        text.push_str(", not settled")?;
    }
    Ok(text)
}

// How many commands the disk was told, how many files it made, and how many calls failed, where any did.
fn notes(alloc: Global, noted: &NotedDisk) -> Result<String, AllocError> {
    let failures = noted.failures();
    let mut text = format!(in alloc; "\n  told {}, creates {}", noted.told, noted.creates)?;
    if failures > 0 {
        let failed = format!(in alloc; ", failures {failures}")?;
        text.push_str(failed.as_str())?;
    }
    Ok(text)
}
