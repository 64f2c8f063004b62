//! An inspection of a folder, and all that is seen of it.

use crate::folder::Folder;
use case_files::CaseFault;
use disk_cases::{SafeFile, resting};
use session_disk::{DiskFile, Failure, Family, MemoryDisk, MemorySink, SessionDisk};
use snss_inspect::{InspectStatus, inspect};
use std::alloc::{AllocError, Global};
use std::fmt::Write;
use std::str;

/// The answer to these words, and then each line that is printed behind a line feed and two spaces. Where a disk isn't
/// as it was, or failed and isn't blamed, a last line says so.
pub(crate) fn inspection(alloc: Global, folder: &Folder, words: &str) -> Result<String, CaseFault> {
    let outcome = inspected(alloc, folder, words)?;
    let mut text = status_text(alloc, outcome.status)?;
    put_printed(&mut text, outcome.printed.as_slice())?;
    let blamed = outcome.status == InspectStatus::Disk(Family::Session);
    put_change(
        &mut text,
        folder.session.as_slice(),
        &outcome.session,
        blamed,
    )?;
    let blamed = outcome.status == InspectStatus::Disk(Family::Tabs);
    put_change(&mut text, folder.tabs.as_slice(), &outcome.tabs, blamed)?;
    Ok(text)
}

// The answer of an inspection, what it printed, and both disks as it left them.
#[derive(Drop)]
struct Outcome {
    status: InspectStatus,
    printed: Vec<u8>,
    session: MemoryDisk,
    tabs: MemoryDisk,
}

fn inspected(alloc: Global, folder: &Folder, words: &str) -> Result<Outcome, CaseFault> {
    let session = disk(
        alloc,
        folder.session.as_slice(),
        folder.session_failures.as_slice(),
    )?;
    let tabs = disk(
        alloc,
        folder.tabs.as_slice(),
        folder.tabs_failures.as_slice(),
    )?;
    let writes = folder.failing_writes.as_slice();
    Ok(inspected_over(alloc, words, writes, session, tabs)?)
}

fn inspected_over(
    alloc: Global,
    words: &str,
    failing_writes: &[u64],
    session: MemoryDisk,
    tabs: MemoryDisk,
) -> Result<Outcome, AllocError> {
    let words = read_words(alloc, words)?;
    let mut sink = MemorySink::new(alloc, failing_writes)?;
    let (status, session, tabs) = inspect(alloc, words.as_slice(), &mut sink, session, tabs);
    Ok(Outcome {
        status,
        printed: Vec::from_slice(alloc, sink.written())?,
        session,
        tabs,
    })
}

fn disk(alloc: Global, files: &[SafeFile], failures: &[Failure]) -> Result<MemoryDisk, CaseFault> {
    let mut disk = resting(alloc, files)?;
    disk.fail(failures)?;
    Ok(disk)
}

// The words of a command line, with one space between two of them.
fn read_words(alloc: Global, text: &str) -> Result<Vec<String>, AllocError> {
    let mut words = Vec::new(alloc);
    if text.is_empty() {
        return Ok(words);
    }
    for word in text.split(' ') {
        let word = if word == "\"\"" { "" } else { word };
        words.push(String::from_str(alloc, word)?)?;
    }
    Ok(words)
}

fn status_text(alloc: Global, status: InspectStatus) -> Result<String, AllocError> {
    let text = match status {
        InspectStatus::Done => "done",
        InspectStatus::Usage => "usage",
        InspectStatus::NoStamp(stamp) => return format!(in alloc; "no-stamp {stamp}"),
        InspectStatus::Disk(Family::Session) => "disk session",
        InspectStatus::Disk(Family::Tabs) => "disk tabs",
        InspectStatus::Write => "write",
        InspectStatus::Memory => "memory",
    };
    String::from_str(alloc, text)
}

fn put_printed(text: &mut String, printed: &[u8]) -> Result<(), CaseFault> {
    let Ok(printed) = str::from_utf8(printed) else {
        return Err(CaseFault::Malformed("what is printed is no text"));
    };
    for line in printed.split_inclusive('\n') {
        text.push_str("\n  ")?;
        put_line(text, line.trim_end_matches('\n'))?;
        if !line.ends_with('\n') {
            text.push_str(" without a line feed")?;
        }
    }
    Ok(())
}

// A line. Where letters x fill a text, their number stands in their place.
fn put_line(text: &mut String, line: &str) -> Result<(), AllocError> {
    let Some((before, rest)) = line.split_once("\"xxxxxxxx") else {
        return text.push_str(line);
    };
    let behind = rest.trim_start_matches('x');
    let count = rest.len().saturating_sub(behind.len()).saturating_add(8);
    write!(text, "{before}\"{count} x{behind}")
}

fn put_change(
    text: &mut String,
    before: &[SafeFile],
    disk: &MemoryDisk,
    blamed: bool,
) -> Result<(), AllocError> {
    if !are_left(before, disk.files()) {
        text.push_str("\n  a file is changed")?;
    }
    if (disk.failures() > 0) != blamed {
        text.push_str("\n  a disk failed and isn't blamed, or it is and didn't")?;
    }
    Ok(())
}

// Whether these files stand with all their bytes, and no others.
fn are_left(before: &[SafeFile], after: &[DiskFile]) -> bool {
    for file in before {
        if !is_left(file, after) {
            return false;
        }
    }
    before.len() == after.len()
}

fn is_left(file: &SafeFile, after: &[DiskFile]) -> bool {
    for left in after {
        if left.stamp == file.stamp {
            return left.bytes.as_slice() == file.bytes.as_slice();
        }
    }
    false
}
