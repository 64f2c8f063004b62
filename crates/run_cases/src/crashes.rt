//! Steps that look at all crashes of a run, of the session's disk or of the other one:
//!
//! - `images WORDS`: a run, and every image of the disk that it leaves
//! - `crashes WORDS`: the run over and over. Each call of the disk fails in turn, once and for good, after several
//!   parts of its work, and every image of the disk that is left is tried
//!
//! An image has to read to the state after a prefix of the commands, with every told one in it. The disk is blamed
//! where a call of it failed, and nowhere else.

use crate::prefixes::prefixes;
use crate::recovered::restated;
use crate::runs::{Found, Outcome, run_over};
use crate::setting::Setting;
use case_files::CaseFault;
use disk_cases::{images, is_among};
use session_disk::{Call, Failure, Family, Keep, SessionDisk};
use session_drive::Status;
use std::alloc::{AllocError, Global};

/// A run that is made over and over, the states after each prefix of its commands, and what was tried of it.
#[derive(Drop)]
pub(crate) struct Trials<'a> {
    alloc: Global,
    found: &'a Found,
    setting: &'a Setting,
    // the family whose disk fails
    family: Family,
    words: &'a str,
    prefixes: Vec<String>,
    tried: Tried,
}

/// How many runs and images were tried, and the first that isn't as it has to be.
#[derive(Drop)]
struct Tried {
    runs: u64,
    images: u64,
    bad: Option<String>,
}

/// How many images the disk has after the run.
pub(crate) fn images_answer(trials: &mut Trials<'_>) -> Result<String, CaseFault> {
    trials.try_run(trials.found.side(trials.family).failures.as_slice())?;
    let count = format!(in trials.alloc; "{}", trials.tried.images)?;
    Ok(trials.tried.bad.take().unwrap_or(count))
}

/// How many calls of each kind the run makes, and how many runs and images were tried.
pub(crate) fn crashes_answer(trials: &mut Trials<'_>) -> Result<String, CaseFault> {
    trials.try_run(&[])?;
    let calls = trials.fail_all()?;
    let Tried { runs, images, .. } = &trials.tried;
    let counts = format!(in trials.alloc; "{}{runs} runs, {images} images", calls.as_str())?;
    Ok(trials.tried.bad.take().unwrap_or(counts))
}

const ALL_OF_A_LOOK: &[u64] = &[0];

const NOTHING_OR_ALL: &[u64] = &[0, 1];

// Of a fresh file, 10 bytes end within the marker of an empty one, and 66 within others.
const SOME_BYTES: &[u64] = &[0, 1, 10, 66, 1000];

impl<'a> Trials<'a> {
    pub(crate) fn new(
        alloc: Global,
        found: &'a Found,
        setting: &'a Setting,
        family: Family,
        words: &'a str,
    ) -> Result<Trials<'a>, CaseFault> {
        let prefixes = prefixes(alloc, found, setting, family)?;
        Ok(Trials {
            alloc,
            found,
            setting,
            family,
            words,
            prefixes,
            tried: Tried {
                runs: 0,
                images: 0,
                bad: None,
            },
        })
    }

    // Lets each call of each kind fail. The answer is how many there are of each.
    fn fail_all(&mut self) -> Result<String, CaseFault> {
        let mut text = String::new(self.alloc);
        for (call, word, parts) in [
            (Call::List, " list, ", ALL_OF_A_LOOK),
            (Call::Length, " length, ", ALL_OF_A_LOOK),
            (Call::Read, " read, ", ALL_OF_A_LOOK),
            (Call::Create, " create, ", NOTHING_OR_ALL),
            (Call::Append, " append, ", SOME_BYTES),
            (Call::Sync, " sync, ", SOME_BYTES),
            (Call::Remove, " remove, ", NOTHING_OR_ALL),
            (Call::Settle, " settle; ", NOTHING_OR_ALL),
        ] {
            let calls = self.fail_each(call, parts)?;
            let calls = format!(in self.alloc; "{calls}{word}")?;
            text.push_str(calls.as_str())?;
        }
        Ok(text)
    }

    // Lets each call of a kind fail, once and for good, after each of these parts of its work. The answer is how many
    // such calls there are.
    fn fail_each(&mut self, call: Call, parts: &[u64]) -> Result<u64, CaseFault> {
        for nth in 1..1000 {
            for done in parts {
                for lasting in [false, true] {
                    let done = *done;
                    let failure = Failure {
                        call,
                        nth,
                        done,
                        lasting,
                    };
                    if self.try_run(&[failure])? == 0 {
                        return Ok(nth - 1);
                    }
                }
            }
        }
        Err(CaseFault::Malformed("the calls have no end"))
    }

    // Makes the run with these failures, and tries each image that it leaves. The answer is how many calls failed.
    fn try_run(&mut self, failures: &[Failure]) -> Result<u64, CaseFault> {
        let outcome = self.outcome(failures)?;
        let failed = outcome.disk(self.family).failures();
        if failed == 0 && !failures.is_empty() {
            return Ok(0);
        }
        self.tried.runs = self.tried.runs.saturating_add(1);
        if self.is_blamed(&outcome) != (failed > 0) {
            self.note(failures, &[], "the answer is another one")?;
        }
        self.try_images(failures, &outcome)?;
        Ok(failed)
    }

    fn outcome(&self, failures: &[Failure]) -> Result<Outcome, CaseFault> {
        let (session, tabs): (&[Failure], &[Failure]) = match self.family {
            Family::Session => (failures, &[]),
            Family::Tabs => (&[], failures),
        };
        let session = self.found.session.disk(self.alloc, session)?;
        let tabs = self.found.tabs.disk(self.alloc, tabs)?;
        Ok(run_over(self.alloc, self.setting, self.words, session, tabs)?)
    }

    // Whether a run says that the family's disk failed.
    fn is_blamed(&self, outcome: &Outcome) -> bool {
        let line = match self.family {
            Family::Session => "fault disk session\n",
            Family::Tabs => "fault disk tabs\n",
        };
        outcome.status == Status::Disk(self.family)
            && outcome.printed.as_slice().ends_with(line.as_bytes())
    }

    fn try_images(&mut self, failures: &[Failure], outcome: &Outcome) -> Result<(), CaseFault> {
        let noted = outcome.disk(self.family);
        let stamps = self.stamps(outcome)?;
        for image in images(self.alloc, &noted.disk, stamps.as_slice())? {
            self.tried.images = self.tried.images.saturating_add(1);
            let state = self.state_after(outcome, image.as_slice())?;
            let prefixes = self.prefixes.as_slice();
            if !is_among(prefixes, noted.told, u64::MAX, state.as_str()) {
                self.note(failures, image.as_slice(), state.as_str())?;
            }
        }
        Ok(())
    }

    // What an image of the disk reads to.
    fn state_after(&self, outcome: &Outcome, image: &[Keep]) -> Result<String, CaseFault> {
        match outcome.disk(self.family).disk.crash(image)? {
            Some(mut left) => restated(self.alloc, self.family, &mut left),
            None => Err(CaseFault::Malformed("no crash leaves such an image")),
        }
    }

    // Keeps the first that isn't as it has to be.
    fn note(&mut self, failures: &[Failure], image: &[Keep], text: &str) -> Result<(), AllocError> {
        if self.tried.bad.is_none() {
            let bad = format!(in self.alloc; "{failures:?}, {image:?}: {text}")?;
            self.tried.bad = Some(bad);
        }
        Ok(())
    }

    // The stamps that files of the run may have: those of its first files, and those that it may have given to others.
    fn stamps(&self, outcome: &Outcome) -> Result<Vec<u64>, CaseFault> {
        let mut stamps = Vec::new(self.alloc);
        let mut fresh = self.setting.clock;
        for file in self.found.side(self.family).files.as_slice() {
            stamps.push(file.stamp)?;
            fresh = fresh.max(file.stamp.saturating_add(1));
        }
        if let Some(last) = outcome.disk(self.family).disk.files().last() {
            for stamp in fresh..last.stamp.saturating_add(1) {
                stamps.push(stamp)?;
            }
        }
        Ok(stamps)
    }
}
