//! Steps on a journal:
//!
//! - `open`, with `every=N`, `max_file=N` and `clock=N` where these aren't 100, 1000 and 100: a journal takes the disk
//! - `tab W T`, `page T I`, `page T I N`: writes the command that puts a tab into a window or a page into a tab, as
//!   `disk_cases` has it
//! - `sync`, `compact`
//! - `told`; `journal`, all that it knows of its file; `state`
//! - `close`: gives the disk back
ghost use Rattle.compactor.specs.session.SessionKind.{IsCommand};

use crate::answers::{said_first, said_number, said_of_journal};
use case_files::CaseFault;
use compactor::SessionMachine;
use disk_cases::{described, number, read_command};
use log_writer::{Journal, JournalFault, Limits, Refused};
use session_commands::SessionCommand;
use session_disk::{FixedClock, MemoryDisk};
use std::alloc::{AllocError, Global};

pub(crate) type SessionJournal = Journal<SessionMachine, MemoryDisk>;

/// How a journal is opened: its limits, and where its clock stands.
#[derive(Clone, Copy)]
pub(crate) struct Opening {
    every: u64,
    max_file: u64,
    pub(crate) clock: u64,
}

/// The words of `open`.
pub(crate) fn read_opening(text: &str) -> Result<Opening, CaseFault> {
    let mut opening = Opening {
        every: 100,
        max_file: 1000,
        clock: 100,
    };
    if text.is_empty() {
        return Ok(opening);
    }
    for word in text.split(' ') {
        opening = set(opening, word)?;
    }
    Ok(opening)
}

fn set(opening: Opening, word: &str) -> Result<Opening, CaseFault> {
    let Some((name, value)) = word.split_once('=') else {
        return Err(CaseFault::Malformed("a name, = and a number are wanted"));
    };
    let value = number(value)?;
    match name {
        "every" => Ok(Opening {
            every: value,
            ..opening
        }),
        "max_file" => Ok(Opening {
            max_file: value,
            ..opening
        }),
        "clock" => Ok(Opening {
            clock: value,
            ..opening
        }),
        _ => Err(CaseFault::Malformed("a journal has no such word")),
    }
}

/// The limits of an opening.
pub(crate) fn limits(opening: Opening) -> Result<Limits, CaseFault> {
    let Opening {
        every,
        max_file,
        ..
    } = opening;
    if every == 0 || max_file == 0 || every > 1 << 40 || max_file > 1 << 40 {
        return Err(CaseFault::Malformed("a limit is from 1 to 2^40"));
    }
    Ok(Limits { every, max_file })
}

// A clock that stands, at 2^62 where the number is beyond.
fn clock_at(moment: u64) -> FixedClock {
    FixedClock::new(moment.min(1 << 62))
}

/// A journal over a disk, which comes back where the opening is refused.
pub(crate) fn opened(
    alloc: Global,
    disk: MemoryDisk,
    moment: u64,
    limits: Limits,
) -> Result<SessionJournal, (MemoryDisk, JournalFault)> {
    Journal::open(alloc, disk, &mut clock_at(moment), limits)
}

/// The answer to a step, and `None` where it is no such one.
pub(crate) fn answer(
    alloc: Global,
    journal: &mut SessionJournal,
    moment: u64,
    line: &str,
) -> Result<Option<String>, CaseFault> {
    Ok(Some(match line {
        "sync" => said_of_journal(alloc, journal.sync())?,
        "compact" => compact(alloc, journal, moment)?,
        "told" => said_number(alloc, Some(journal.told()))?,
        "journal" => account(alloc, journal)?,
        "state" => described(alloc, journal.state())?,
        _ => match read_command(alloc, line)? {
            Some(command) => write(alloc, journal, moment, command)?,
            None => return Ok(None),
        },
    }))
}

fn compact(alloc: Global, journal: &mut SessionJournal, moment: u64) -> Result<String, AllocError> {
    let outcome = journal.compact(&mut clock_at(moment));
    said_of_journal(alloc, outcome)
}

fn write(
    alloc: Global,
    journal: &mut SessionJournal,
    moment: u64,
    command: SessionCommand,
) -> Result<String, AllocError>
    requires { IsCommand command }
{
    match written(journal, moment, command) {
        Ok(()) => String::from_str(alloc, "ok"),
        Err(refused) => said_refused(alloc, refused.fault, &refused.command),
    }
}

fn written(
    journal: &mut SessionJournal,
    moment: u64,
    command: SessionCommand,
) -> Result<(), Refused<SessionCommand>>
    requires { IsCommand command }
{
    journal.write(&mut clock_at(moment), command)
}

// A refusal says which command came back.
fn said_refused(
    alloc: Global,
    fault: JournalFault,
    command: &SessionCommand,
) -> Result<String, AllocError> {
    let fault = said_of_journal(alloc, Err(fault))?;
    match command {
        SessionCommand::TabWindow { window, tab } => {
            format!(in alloc; "{}, and tab {window} {tab} is back", fault.as_str())
        }
        _ => format!(in alloc; "{}, and another command is back", fault.as_str()),
    }
}

// What a journal knows of itself and its file.
fn account(alloc: Global, journal: &SessionJournal) -> Result<String, AllocError> {
    let mut text = format!(in alloc; "count {}, told {}", journal.count(), journal.told())?;
    let file = format!(in alloc;
        ", file {} of {} bytes, {} after the marker",
        journal.stamp(),
        journal.length(),
        journal.after()
    )?;
    text.push_str(file.as_str())?;
    if let Some(first) = journal.failed() {
        text.push_str(", failed: ")?;
        text.push_str(said_first(alloc, first)?.as_str())?;
    }
    Ok(text)
}
