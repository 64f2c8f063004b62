//! The steps of a case, made over a disk with planned failures.

use crate::journals::read_opening;
use crate::prefixes::prefixes;
use crate::subject::Subject;
use case_files::CaseFault;
use disk_cases::{SafeFile, resting};
use session_disk::{Failure, MemoryDisk};
use std::alloc::Global;

/// Steps that are made over and over, and the states after each prefix of their commands.
#[derive(Drop)]
pub(crate) struct Script<'a> {
    pub(crate) alloc: Global,
    pub(crate) prefixes: Vec<String>,
    files: &'a [SafeFile],
    steps: &'a str,
    clock: u64,
}

/// What is left where a journal was open: its disk, and how many commands were told and taken.
#[derive(Drop)]
pub(crate) struct Run {
    pub(crate) disk: MemoryDisk,
    pub(crate) told: u64,
    pub(crate) taken: u64,
}

/// The steps of a case, of which the first one opens a journal, up to `cuts`.
pub(crate) fn read_script<'a>(
    alloc: Global,
    files: &'a [SafeFile],
    steps: &'a str,
) -> Result<Script<'a>, CaseFault> {
    Ok(Script {
        alloc,
        prefixes: prefixes(alloc, files, steps)?,
        files,
        steps,
        clock: clock_of(files, steps)?,
    })
}

// Where the clock of the journal stands, which is above all stamps.
fn clock_of(files: &[SafeFile], steps: &str) -> Result<u64, CaseFault> {
    let opening = match steps.lines().nth(files.len()) {
        Some(step) => step.strip_prefix("open"),
        None => None,
    };
    let Some(words) = opening else {
        return Err(CaseFault::Malformed("the first step opens a journal"));
    };
    let clock = read_opening(words.trim_start())?.clock;
    if files.iter().any(|file| file.stamp >= clock) {
        return Err(CaseFault::Malformed("the clock stands above all stamps"));
    }
    Ok(clock)
}

/// Makes the steps while a journal is open.
pub(crate) fn run_with(script: &Script<'_>, failures: &[Failure]) -> Result<Run, CaseFault> {
    let disk = failing(script, failures)?;
    let mut subject = Subject::over(script.alloc, disk);
    for step in script.steps.lines().skip(script.files.len()) {
        if step == "cuts" {
            break;
        }
        subject.step(step)?;
        if subject.journal().is_none() {
            break;
        }
    }
    ended(subject)
}

fn failing(script: &Script<'_>, failures: &[Failure]) -> Result<MemoryDisk, CaseFault> {
    let mut disk = resting(script.alloc, script.files)?;
    disk.fail(failures)?;
    Ok(disk)
}

fn ended(subject: Subject) -> Result<Run, CaseFault> {
    let (told, taken) = match subject.journal() {
        Some(journal) => (journal.told(), journal.count()),
        None => (0, 0),
    };
    match subject.into_disk() {
        Some(disk) => Ok(Run { disk, told, taken }),
        None => Err(CaseFault::Malformed("there is no disk")),
    }
}

/// The stamps that files of a run may have: those of its first files, then those from the clock's on.
pub(crate) fn stamps(script: &Script<'_>, disk: &MemoryDisk) -> Result<Vec<u64>, CaseFault> {
    let mut stamps = Vec::new(script.alloc);
    for file in script.files {
        stamps.push(file.stamp)?;
    }
    if let Some(last) = disk.files().last() {
        for stamp in script.clock..last.stamp.saturating_add(1) {
            stamps.push(stamp)?;
        }
    }
    Ok(stamps)
}
