//! What the steps of a case act on: a disk, or a journal that has taken it, and streams.

use crate::changes::change;
use crate::journals::{self, SessionJournal, limits, opened, read_opening};
use crate::looks::look;
use crate::streams::Streams;
use crate::{answers, choices, cuts, names};
use case_files::{CaseFault, Transcript, first_word};
use disk_cases::{SafeFile, put_answer, read_failures, read_files, read_keeps, resting};
use session_disk::MemoryDisk;
use std::alloc::Global;

/// The cases of disks, of the files on them and of journals.
pub(crate) struct StorageCases;

impl Transcript for StorageCases {
    fn transcript(alloc: Global, steps: &str, line: &mut u64) -> Result<String, CaseFault> {
        let files = read_files(alloc, steps, line)?;
        let mut subject = Subject::new(alloc, files.as_slice())?;
        let mut text = String::new(alloc);
        for step in steps.lines().skip(files.len()) {
            let said = match step {
                "cuts" => cuts::answer(alloc, files.as_slice(), steps)?,
                _ => subject.step(step)?,
            };
            put_answer(&mut text, step, said.as_str())?;
            *line = line.saturating_add(1);
        }
        Ok(text)
    }
}

#[derive(Drop)]
pub(crate) struct Subject {
    alloc: Global,
    disk: Option<MemoryDisk>,
    journal: Option<SessionJournal>,
    // where the clock of the journal stands
    moment: u64,
    streams: Streams,
}

impl Subject {
    /// A disk at rest with these files.
    fn new(alloc: Global, files: &[SafeFile]) -> Result<Subject, CaseFault> {
        let disk = resting(alloc, files)?;
        Ok(Subject::over(alloc, disk))
    }

    /// A disk, and no journal or stream.
    pub(crate) fn over(alloc: Global, disk: MemoryDisk) -> Subject {
        Subject {
            alloc,
            disk: Some(disk),
            journal: None,
            moment: 0,
            streams: Streams::none(),
        }
    }

    /// The journal, where one is open.
    pub(crate) fn journal(&self) -> Option<&SessionJournal> {
        self.journal.as_ref()
    }

    /// The disk, also where a journal has it.
    pub(crate) fn into_disk(self) -> Option<MemoryDisk> {
        let Subject { disk, journal, .. } = self;
        match journal {
            Some(journal) => Some(journal.close()),
            None => disk,
        }
    }

    /// Makes a step, and gives its answer, which is empty where it has none.
    pub(crate) fn step(&mut self, line: &str) -> Result<String, CaseFault> {
        let (verb, rest) = first_word(line);
        if let Some(said) = names::answer(self.alloc, verb, rest)? {
            return Ok(said);
        }
        if let Some(said) = self.streams.answer(self.alloc, verb, rest)? {
            return Ok(said);
        }
        match &mut self.journal {
            Some(_) if line == "close" => self.close(),
            Some(journal) => step_of_journal(self.alloc, journal, self.moment, line),
            None if verb == "open" => self.open(rest),
            None => self.step_of_disk(verb, rest),
        }
    }

    fn open(&mut self, words: &str) -> Result<String, CaseFault> {
        let opening = read_opening(words)?;
        let limits = limits(opening)?;
        let Some(disk) = self.disk.take() else {
            return Err(CaseFault::Malformed("there is no disk"));
        };
        self.moment = opening.clock;
        let outcome = match opened(self.alloc, disk, opening.clock, limits) {
            Ok(journal) => {
                self.journal = Some(journal);
                Ok(())
            }
            Err((disk, fault)) => {
                self.disk = Some(disk);
                Err(fault)
            }
        };
        Ok(answers::said_of_journal(self.alloc, outcome)?)
    }

    fn close(&mut self) -> Result<String, CaseFault> {
        if let Some(journal) = self.journal.take() {
            self.disk = Some(journal.close());
        }
        Ok(String::from_str(self.alloc, "ok")?)
    }

    fn step_of_disk(&mut self, verb: &str, rest: &str) -> Result<String, CaseFault> {
        let Some(disk) = &mut self.disk else {
            return Err(CaseFault::Malformed("there is no disk"));
        };
        if verb == "crash" {
            let keeps = read_keeps(self.alloc, rest)?;
            let Some(left) = disk.crash(keeps.as_slice())? else {
                return Ok(String::from_str(self.alloc, "can't be")?);
            };
            self.disk = Some(left);
            return Ok(String::from_str(self.alloc, "ok")?);
        }
        step_of(self.alloc, disk, verb, rest)
    }
}

fn step_of_journal(
    alloc: Global,
    journal: &mut SessionJournal,
    moment: u64,
    line: &str,
) -> Result<String, CaseFault> {
    match journals::answer(alloc, journal, moment, line)? {
        Some(said) => Ok(said),
        None => Err(CaseFault::Malformed("an open journal has no such step")),
    }
}

fn step_of(
    alloc: Global,
    disk: &mut MemoryDisk,
    verb: &str,
    rest: &str,
) -> Result<String, CaseFault> {
    if verb == "fail" {
        let failures = read_failures(alloc, rest)?;
        disk.fail(failures.as_slice())?;
        return Ok(String::new(alloc));
    }
    if let Some(said) = look(alloc, disk, verb, rest)? {
        return Ok(said);
    }
    if let Some(said) = choices::answer(alloc, disk, verb, rest)? {
        return Ok(said);
    }
    Ok(String::from_str(alloc, change(alloc, disk, verb, rest)?)?)
}
