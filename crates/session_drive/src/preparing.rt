//! What stands in front of a script: the words, its text, and the journals of both families, which are opened. Behind
//! it the journals are closed.
ghost use Rattle.std.specs.Prelude.{◌≡◌, IfErr, IfOk, map};
ghost use Rattle.std.specs.String.{string_bytes};
ghost use Rattle.session_disk.specs.Causes.{Rose};
ghost use Rattle.writer_core.specs.Opening.{disks};
ghost use Rattle.run_words.specs.Words.{order_of};
ghost use Rattle.script_run.specs.Runs.{logs};
ghost use Rattle.session_drive.specs.Answers.{IsFirstOf};
ghost use Rattle.session_drive.specs.Attempt.{IsRefused};
ghost use Rattle.session_drive.specs.Prepared.{Closes, IsPrepared};
ghost use Rattle.session_drive.specs.Run.{ReadsNone, found};

use crate::answers::{answer_by, status_of};
use crate::reading::{Task, read};
use compactor::SessionMachine;
use run_words::{Status, Why};
use script_run::Halt;
use session_disk::{Clock, Family, SessionDisk, Source};
use std::alloc::Global;
use tabs_compactor::TabsMachine;
use writer_core::{Writers, open_journal};

/// A script, and the journals over which it is run.
pub(crate) struct Prepared<D: SessionDisk> {
    pub text: Vec<u8>,
    pub writers: Writers<SessionMachine, TabsMachine, D>,
}

/// The script that the words ask for, with both journals. What is refused ends with its answer, and hands both disks
/// back.
pub(crate) fn prepare<S: Source, D: SessionDisk, C: Clock>(
    alloc: Global,
    words: &[String],
    script: &mut S,
    session: D,
    tabs: D,
    clock: &mut C,
) -> Result<Prepared<D>, (Status, D, D)>
    ensures prepared { IfOk result (λ prepared. IsPrepared
        (order_of (map string_bytes words.now)) (S.left script.old) prepared.text.items D.modelled
        (disks D.history D.failed session tabs) (logs prepared.writers)) }
    ensures refused { IfErr result (λ refused. IsRefused
        (found (map string_bytes words.now) (S.left script.old) D.modelled
        (disks D.history D.failed session tabs) (disks D.history D.failed refused.1 refused.2))
        (Rose (S.faults script.old) (S.faults script.new))
        (refused.1 ≡ session) (refused.2 ≡ tabs) refused.0) }
    ensures not_read { ReadsNone (order_of (map string_bytes words.now)) → script.new ≡ script.old }
{
    let Task { text, limits } = match read(alloc, words, script) {
        Ok(task) => task,
        Err(status) => return Err((status, session, tabs)),
    };
    let session = match open_journal(alloc, Family::Session, session, clock, limits) {
        Ok(journal) => journal,
        Err((session, stopped)) => return Err((status_of(stopped), session, tabs)),
    };
    let tabs = match open_journal(alloc, Family::Tabs, tabs, clock, limits) {
        Ok(journal) => journal,
        Err((tabs, stopped)) => return Err((status_of(stopped), session.close(), tabs)),
    };
    let writers = Writers { session, tabs };
    Ok(Prepared { text, writers })
}

/// The answer to what a script came to, with the disks of its journals.
pub(crate) fn close_run<D: SessionDisk>(
    writers: Writers<SessionMachine, TabsMachine, D>,
    ran: Result<Option<(u64, Why)>, Halt>,
) -> (Status, D, D)
    requires { IsFirstOf ran }
    ensures { Closes (logs writers) ran (disks D.history D.failed result.1 result.2) result.0 }
{
    let status = answer_by(ran, writers.session.count(), writers.tabs.count());
    (status, writers.session.close(), writers.tabs.close())
}
