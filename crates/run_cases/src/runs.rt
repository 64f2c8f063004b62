//! One run, and all that is seen of it.

use crate::noted_disk::NotedDisk;
use crate::setting::Setting;
use crate::side::Side;
use case_files::CaseFault;
use session_disk::{Family, FixedClock, MemorySink, MemorySource};
use session_drive::{Status, drive_inline};
use std::alloc::{AllocError, Global};

/// The files of both families.
#[derive(Drop)]
pub(crate) struct Found {
    pub(crate) session: Side,
    pub(crate) tabs: Side,
}

impl Found {
    pub(crate) fn side(&self, family: Family) -> &Side {
        match family {
            Family::Session => &self.session,
            Family::Tabs => &self.tabs,
        }
    }

    pub(crate) fn side_mut(&mut self, family: Family) -> &mut Side {
        match family {
            Family::Session => &mut self.session,
            Family::Tabs => &mut self.tabs,
        }
    }
}

/// The answer of a run, what it printed, and both disks as it left them.
#[derive(Drop)]
pub(crate) struct Outcome {
    pub(crate) status: Status,
    pub(crate) printed: Vec<u8>,
    pub(crate) session: NotedDisk,
    pub(crate) tabs: NotedDisk,
}

impl Outcome {
    pub(crate) fn disk(&self, family: Family) -> &NotedDisk {
        match family {
            Family::Session => &self.session,
            Family::Tabs => &self.tabs,
        }
    }
}

/// Runs with these words over the files, with the failures that are planned.
pub(crate) fn run(
    alloc: Global,
    found: &Found,
    setting: &Setting,
    words: &str,
) -> Result<Outcome, CaseFault> {
    let session = found
        .session
        .disk(alloc, found.session.failures.as_slice())?;
    let tabs = found.tabs.disk(alloc, found.tabs.failures.as_slice())?;
    Ok(run_over(alloc, setting, words, session, tabs)?)
}

/// Runs with these words over both disks.
pub(crate) fn run_over(
    alloc: Global,
    setting: &Setting,
    words: &str,
    session: NotedDisk,
    tabs: NotedDisk,
) -> Result<Outcome, AllocError> {
    let words = read_words(alloc, words)?;
    let script = setting.script.as_slice();
    let mut source = MemorySource::new(alloc, script, setting.failing_reads.as_slice())?;
    let mut sink = MemorySink::new(alloc, setting.failing_writes.as_slice())?;
    let (status, session, tabs) = drive_inline(
        alloc,
        words.as_slice(),
        &mut source,
        &mut sink,
        session,
        tabs,
        &mut FixedClock::new(setting.clock.min(1 << 62)),
    );
    Ok(Outcome {
        status,
        printed: Vec::from_slice(alloc, sink.written())?,
        session,
        tabs,
    })
}

// The words of a command line, with one space between two of them; `""` is the empty one.
fn read_words(alloc: Global, text: &str) -> Result<Vec<String>, AllocError> {
    let mut words = Vec::new(alloc);
    if text.is_empty() {
        return Ok(words);
    }
    for word in text.split(' ') {
        let word = if word == "\"\"" { "" } else { word };
        words.push(String::from_str(alloc, word)?)?;
    }
    Ok(words)
}
