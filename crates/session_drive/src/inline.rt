//! A whole run by the thread that calls: the words, the script, the journals of both families and the output.
//! What is said of the journals' files and of the output is said from the accounts over the steps of the script.
ghost use Rattle.std.specs.Prelude.{◌≡◌, map};
ghost use Rattle.std.specs.String.{string_bytes};
ghost use Rattle.session_disk.specs.Causes.{Rose};
ghost use Rattle.writer_core.specs.Opening.{disks};
ghost use Rattle.script_run.specs.Doing.{sunk};
ghost use Rattle.session_drive.specs.Attempt.{IsAttempted};
ghost use Rattle.session_drive.specs.Driven.{IsDriven};
ghost use Rattle.session_drive.specs.Run.{found};

use crate::closing::conclude;
use crate::preparing::{Prepared, close_run, prepare};
use run_words::Status;
use script_run::run_script;
use session_disk::{Clock, SessionDisk, Sink, Source};
use std::alloc::Global;

/// Does all that the program does: reads the words, reads or generates the script, opens the journals of both families,
/// runs the script over them, and says how it went. The thread that calls does all of it.
///
/// It takes time and memory in the script, in the files of both disks and in the states that they read to.
///
/// The clauses on content hold where the source, the sink or the disks are modelled; those on files for the states to
/// which the disks' files read, where they are at rest and nothing is told.
pub fn drive_inline<S: Source, K: Sink, D: SessionDisk, C: Clock>(
    alloc: Global,
    words: &[String],
    script: &mut S,
    out: &mut K,
    session: D,
    tabs: D,
    clock: &mut C,
) -> (Status, D, D)
    ensures { IsDriven
        (found (map string_bytes words.now) (S.left script.old) D.modelled
        (disks D.history D.failed session tabs) (disks D.history D.failed result.1 result.2))
        (Rose (S.faults script.old) (S.faults script.new)) (Rose (K.faults out.old) (K.faults out.new))
        (K.written out.old) (K.written out.new)
        (script.new ≡ script.old) (result.1 ≡ session) (result.2 ≡ tabs) result.0 }
{
    let (status, session, tabs) = attempt(alloc, words, script, out, session, tabs, clock);
    let status = conclude(alloc, out, status);
    (status, session, tabs)
}

// All but the last line.
fn attempt<S: Source, K: Sink, D: SessionDisk, C: Clock>(
    alloc: Global,
    words: &[String],
    script: &mut S,
    out: &mut K,
    session: D,
    tabs: D,
    clock: &mut C,
) -> (Status, D, D)
    ensures { IsAttempted
        (found (map string_bytes words.now) (S.left script.old) D.modelled
        (disks D.history D.failed session tabs) (disks D.history D.failed result.1 result.2))
        (Rose (S.faults script.old) (S.faults script.new))
        (sunk K.written K.faults out.old) (sunk K.written K.faults out.new)
        (script.new ≡ script.old) (result.1 ≡ session) (result.2 ≡ tabs) result.0 }
{
    let Prepared { text, writers } = match prepare(alloc, words, script, session, tabs, clock) {
        Ok(prepared) => prepared,
        Err(refused) => return refused,
    };
    let (writers, ran) = run_script(alloc, writers, out, clock, &text);
    close_run(writers, ran)
}
