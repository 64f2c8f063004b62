//! What the steps of a case say of a folder: its files, the calls that fail, and then the inspections of it.
//!
//! - `session STAMP BYTES`, `tabs STAMP BYTES`: a file of a family, with bytes as `file_bytes.rt` has them
//! - `fail session FAILURE, ..`, `fail tabs FAILURE, ..`: calls of the family's disk that fail, as cases of disks have
//!   them; `fail write N N ..`: writes of the output that fail
//! - `words WORD WORD ..`: an inspection with these words, `""` for an empty one

use crate::file_bytes::file_bytes;
use crate::inspections::inspection;
use case_files::{CaseFault, Transcript, first_word};
use disk_cases::{SafeFile, number, numbers, put_answer, read_failures};
use session_disk::Failure;
use std::alloc::Global;

/// The cases of inspections.
pub(crate) struct InspectCases;

impl Transcript for InspectCases {
    fn transcript(alloc: Global, steps: &str, line: &mut u64) -> Result<String, CaseFault> {
        let mut folder = Folder {
            session: Vec::new(alloc),
            tabs: Vec::new(alloc),
            session_failures: Vec::new(alloc),
            tabs_failures: Vec::new(alloc),
            failing_writes: Vec::new(alloc),
        };
        let mut text = String::new(alloc);
        for step in steps.lines() {
            let said = folder.step(alloc, step)?;
            put_answer(&mut text, step, said.as_str())?;
            *line = line.saturating_add(1);
        }
        Ok(text)
    }
}

/// The files of both families, and the calls of the disks and of the output that fail.
#[derive(Drop)]
pub(crate) struct Folder {
    pub(crate) session: Vec<SafeFile>,
    pub(crate) tabs: Vec<SafeFile>,
    pub(crate) session_failures: Vec<Failure>,
    pub(crate) tabs_failures: Vec<Failure>,
    pub(crate) failing_writes: Vec<u64>,
}

impl Folder {
    // Makes a step, and gives its answer, which is empty where it has none.
    fn step(&mut self, alloc: Global, step: &str) -> Result<String, CaseFault> {
        let (verb, rest) = first_word(step);
        match verb {
            "session" => self.session.push(file(alloc, rest)?)?,
            "tabs" => self.tabs.push(file(alloc, rest)?)?,
            "fail" => self.plan(alloc, rest)?,
            "words" => return inspection(alloc, self, rest),
            _ => return Err(CaseFault::Malformed("there is no such step")),
        }
        Ok(String::new(alloc))
    }

    fn plan(&mut self, alloc: Global, text: &str) -> Result<(), CaseFault> {
        let (what, calls) = first_word(text);
        match what {
            "session" => self.session_failures = read_failures(alloc, calls)?,
            "tabs" => self.tabs_failures = read_failures(alloc, calls)?,
            "write" => self.failing_writes = numbers(alloc, calls)?,
            _ => return Err(CaseFault::Malformed("session, tabs or write is wanted")),
        }
        Ok(())
    }
}

// A file by its stamp and its bytes.
fn file(alloc: Global, text: &str) -> Result<SafeFile, CaseFault> {
    let (stamp, bytes) = first_word(text);
    let stamp = number(stamp)?;
    let bytes = file_bytes(alloc, bytes)?;
    Ok(SafeFile { stamp, bytes })
}
