//! The answers of a run that called its disks: that to a script in which nothing failed, and that to the first fault
//! of a journal or of the sink.
ghost use Rattle.std.specs.Prelude.{◌≡◌};
ghost use Rattle.session_drive.specs.Answers.{IsFirst, IsFirstOf, answer_by, status_of};
ghost use Rattle.session_drive.specs.Run.{answer_of};

use log_writer::JournalFault;
use run_words::{Long, Status, Why};
use script_run::Halt;
use writer_core::Stopped;

/// The answer to what a run over open journals came to, which took so many commands.
pub(crate) fn answer_by(ran: Result<Option<(u64, Why)>, Halt>, session: u64, tabs: u64) -> Status
    requires { IsFirstOf ran }
    ensures { result ≡ answer_by ran session tabs }
{
    match ran {
        Ok(refused) => answer_of(refused, session, tabs),
        Err(Halt::Journal(stopped)) => status_of(stopped),
        Err(Halt::Write) => Status::Write,
        Err(Halt::Memory) => Status::Memory,
    }
}

// The answer to a script in which nothing failed: the line that is refused, or how many commands each family was
// issued.
fn answer_of(refused: Option<(u64, Why)>, session: u64, tabs: u64) -> Status
    ensures { result ≡ answer_of refused session tabs }
{
    match refused {
        Some((line, why)) => Status::Refused { line, why },
        None => Status::Done { session, tabs },
    }
}

/// A journal's first fault as an answer.
pub(crate) fn status_of(stopped: Stopped) -> Status
    requires { IsFirst stopped.fault }
    ensures { result ≡ status_of stopped.family stopped.fault }
{
    let Stopped { family, fault } = stopped;
    match fault {
        JournalFault::AlreadyFailed(_) => unreachable!(),
        JournalFault::Disk => Status::Disk(family),
        JournalFault::TooLong { needed } => Status::TooLong {
            what: Long::File(family),
            needed,
        },
        JournalFault::LastStamp { stamp } => Status::LastStamp { family, stamp },
        JournalFault::Memory => Status::Memory,
    }
}
