//! Sessions of tabs in one window, over disks, for tests.
ghost use Rattle.compactor.specs.session.SessionKind.{IsCommand};

use compactor::SessionMachine;
use file_rotation::recover;
use log_writer::{Journal, JournalFault, Limits};
use session_commands::SessionCommand;
use session_disk::{FixedClock, SessionDisk};
use std::alloc::Global;
use std::test::Fail;
use window_state::SessionState;

/// The journal of a session.
pub(crate) type SessionJournal<D> = Journal<SessionMachine, D>;

/// A tab in window 1.
pub(crate) fn tab(tab: i32) -> SessionCommand
    ensures { IsCommand result }
{
    let command = SessionCommand::TabWindow { window: 1, tab };
    command.known_in_range();
    command
}

/// A file of header, marker and the tab 2 in window 1.
pub(crate) const ONE_TAB: [u8; 22] = [
    0x53, 0x4E, 0x53, 0x53, 3, 0, 0, 0, 1, 0, 255, 9, 0, 0, 1, 0, 0, 0, 2, 0, 0, 0,
];

/// The state to which a disk reads.
pub(crate) fn state_on<D: SessionDisk>(alloc: Global, disk: &mut D) -> Result<SessionState, Fail> {
    Ok(recover::<SessionMachine, D>(alloc, disk)?.state)
}

/// A journal over a disk, with a clock that stands at 100.
pub(crate) fn opened<D: SessionDisk>(
    alloc: Global,
    disk: D,
    limits: Limits,
) -> Result<SessionJournal<D>, Fail> {
    match Journal::open(alloc, disk, &mut FixedClock::new(100), limits) {
        Ok(journal) => Ok(journal),
        Err((_, fault)) => Err(fault.into()),
    }
}

/// One call of a journal.
#[derive(Clone, Copy, Debug)]
pub(crate) enum Call {
    Tab(i32),
    Sync,
    Compact,
}

// Makes one call of a journal.
fn make<D: SessionDisk>(journal: &mut SessionJournal<D>, call: Call) -> Result<(), JournalFault> {
    let mut clock = FixedClock::new(100);
    match call {
        Call::Tab(id) => journal
            .write(&mut clock, tab(id))
            .map_err(|refused| refused.fault),
        Call::Sync => journal.sync(),
        Call::Compact => journal.compact(&mut clock),
    }
}

/// Makes calls up to the first one that is refused, whose answer is the answer.
pub(crate) fn make_all<D: SessionDisk>(
    journal: &mut SessionJournal<D>,
    calls: &[Call],
) -> Result<(), JournalFault> {
    for next in calls {
        make(journal, *next)?;
    }
    Ok(())
}
