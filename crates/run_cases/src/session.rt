//! What the steps of a case act on: the files of both families between its runs, and the disks as the last run left
//! them. What a run finds stands before it, as `setting.rt` has it; then the steps are
//!
//! - `words WORD WORD ..`: a run with these words, `""` for an empty one, over the files that stand
//! - `try LINE`: the last line of a run with the words `run d`, of the script so far with this line behind it, which
//!   leaves the files and the script as they were
//! - `images WORDS`, `crashes WORDS`, as `crashes.rt` has them
//! - `fail FAILURE, ..`: calls of the disk that fail in the next run
//! - `bytes STAMP`: the bytes of a file
//! - `restated STAMP`, `commands STAMP`: the commands of a file before its marker, and those behind it, as
//!   `commands.rt` has them
//! - `state`: what the files read to
//! - `crash STAMP:LENGTH ..`: what a crash leaves of the disk after the last run
//!
//! They are about the session's disk, and behind the word `tabs` about that of the closed entries, where `tabs add
//! STAMP BYTES` adds a file and `tabs left` says what the last run left.

use crate::commands::commands_text;
use crate::crashes::{Trials, crashes_answer, images_answer};
use crate::frames::{frames, parted};
use crate::recovered::state_of;
use crate::runs::{Found, run};
use crate::setting::Setting;
use crate::side::Side;
use crate::transcripts::{left_text, transcript};
use case_files::{CaseFault, Transcript, first_word};
use disk_cases::{
    SafeFile, put_answer, read_failures, read_file, read_files, resting, write_bytes,
};
use session_disk::Family;
use std::alloc::Global;
use std::str;

/// The cases of whole runs.
pub(crate) struct RunCases;

impl Transcript for RunCases {
    fn transcript(alloc: Global, steps: &str, line: &mut u64) -> Result<String, CaseFault> {
        let files = read_files(alloc, steps, line)?;
        let count = files.len();
        let mut session = Session::new(alloc, files);
        let mut text = String::new(alloc);
        for step in steps.lines().skip(count) {
            let said = session.step(step)?;
            put_answer(&mut text, step, said.as_str())?;
            *line = line.saturating_add(1);
        }
        Ok(text)
    }
}

#[derive(Drop)]
struct Session {
    alloc: Global,
    setting: Setting,
    found: Found,
}

impl Session {
    // With these files of the session, none of closed entries, and a clock that stands at 100.
    fn new(alloc: Global, files: Vec<SafeFile>) -> Session {
        Session {
            alloc,
            setting: Setting::new(alloc, 100),
            found: Found {
                session: Side::new(alloc, files),
                tabs: Side::new(alloc, Vec::new(alloc)),
            },
        }
    }

    // Makes a step, and gives its answer, which is empty where it has none.
    fn step(&mut self, line: &str) -> Result<String, CaseFault> {
        let (verb, rest) = first_word(line);
        if self.setting.takes(self.alloc, verb, rest)? {
            return Ok(String::new(self.alloc));
        }
        match verb {
            "words" => self.run(rest),
            "try" => self.try_line(rest),
            "tabs" => self.step_of_tabs(rest),
            _ => self.step_of(Family::Session, verb, rest),
        }
    }

    fn step_of_tabs(&mut self, line: &str) -> Result<String, CaseFault> {
        let (verb, rest) = first_word(line);
        match verb {
            "left" => Ok(left_text(self.alloc, self.found.tabs.last()?)?),
            "add" => {
                if let Some(file) = read_file(self.alloc, line)? {
                    self.found.tabs.files.push(file)?;
                }
                Ok(String::new(self.alloc))
            }
            _ => self.step_of(Family::Tabs, verb, rest),
        }
    }

    fn step_of(&mut self, family: Family, verb: &str, rest: &str) -> Result<String, CaseFault> {
        let alloc = self.alloc;
        match verb {
            "images" => images_answer(&mut self.trials(family, rest)?),
            "crashes" => crashes_answer(&mut self.trials(family, rest)?),
            "fail" => {
                let failures = read_failures(alloc, rest)?;
                self.found.side_mut(family).failures = failures;
                Ok(String::new(alloc))
            }
            "bytes" => Ok(write_bytes(alloc, self.found.side(family).file(rest)?)?),
            "restated" => {
                let frames = frames(alloc, self.found.side(family).file(rest)?)?;
                commands_text(alloc, family, parted(&frames).0)
            }
            "commands" => {
                let frames = frames(alloc, self.found.side(family).file(rest)?)?;
                commands_text(alloc, family, parted(&frames).1)
            }
            "state" => {
                let mut disk = resting(alloc, self.found.side(family).files.as_slice())?;
                state_of(alloc, family, &mut disk)
            }
            "crash" => match self.found.side_mut(family).crash(alloc, rest)? {
                true => Ok(String::from_str(alloc, "ok")?),
                false => Ok(String::from_str(alloc, "can't be")?),
            },
            _ => Err(CaseFault::Malformed("there is no such step")),
        }
    }

    fn trials<'a>(&'a self, family: Family, words: &'a str) -> Result<Trials<'a>, CaseFault> {
        Trials::new(self.alloc, &self.found, &self.setting, family, words)
    }

    fn try_line(&self, line: &str) -> Result<String, CaseFault> {
        let mut setting = Setting::new(self.alloc, self.setting.clock);
        setting
            .script
            .extend_from_slice(self.setting.script.as_slice())?;
        setting.put_line(self.alloc, line)?;
        let outcome = run(self.alloc, &self.found, &setting, "run d")?;
        match str::from_utf8(outcome.printed.as_slice()) {
            Ok(printed) => Ok(String::from_str(
                self.alloc,
                printed.lines().last().unwrap_or("nothing"),
            )?),
            Err(_) => Err(CaseFault::Malformed("the run printed what is no text")),
        }
    }

    fn run(&mut self, words: &str) -> Result<String, CaseFault> {
        let outcome = run(self.alloc, &self.found, &self.setting, words)?;
        let text = transcript(self.alloc, &outcome)?;
        self.found.session.take(self.alloc, outcome.session)?;
        self.found.tabs.take(self.alloc, outcome.tabs)?;
        self.setting = Setting::new(self.alloc, self.setting.clock);
        Ok(text)
    }
}
