//! A whole run whose journals are written by a second thread, beside the one that reads the script and prints.
//! All that is said of a run by one thread is said of it, by the same words.
ghost use Rattle.std.specs.Prelude.{◌≡◌, map};
ghost use Rattle.std.specs.String.{string_bytes};
ghost use Rattle.session_disk.specs.Causes.{Rose};
ghost use Rattle.writer_core.specs.Opening.{disks};
ghost use Rattle.script_run.specs.Doing.{sunk};
ghost use Rattle.session_drive.specs.Attempt.{IsAttempted};
ghost use Rattle.session_drive.specs.Driven.{IsDriven};
ghost use Rattle.session_drive.specs.Run.{found};

use crate::closing::conclude;
use crate::inline::drive_inline;
use crate::preparing::{Prepared, close_run, prepare};
use run_words::{Status, wants_inline};
use session_disk::{Clock, SessionDisk, Sink, Source};
use std::alloc::Global;
use std::sync::Wait;
use std::thread::Threads;
use threaded_run::{Gate, NoGate, run_script_beside};

/// Does what `drive_inline` does, with a second thread that writes the journals, unless the words hold `--inline`.
///
/// It waits for the second thread, and takes memory for what it hands to it beside what the journals take.
pub fn drive<R: Threads + Wait + Sync, S: Source, K: Sink, D: SessionDisk + Send, C: Clock + Send>(
    rt: &R,
    alloc: Global,
    words: &[String],
    script: &mut S,
    out: &mut K,
    session: D,
    tabs: D,
    clock: &mut C,
) -> (Status, D, D)
    ensures { IsDriven
        (found (map string_bytes words.now) (S.left script.old) D.modelled
        (disks D.history D.failed session tabs) (disks D.history D.failed result.1 result.2))
        (Rose (S.faults script.old) (S.faults script.new)) (Rose (K.faults out.old) (K.faults out.new))
        (K.written out.old) (K.written out.new)
        (script.new ≡ script.old) (result.1 ≡ session) (result.2 ≡ tabs) result.0 }
{
    drive_gated(rt, alloc, words, script, out, session, tabs, clock, &NoGate)
}

/// The same, where a gate is passed behind each item that is handed to the second thread.
pub fn drive_gated<
    R: Threads + Wait + Sync,
    S: Source,
    K: Sink,
    D: SessionDisk + Send,
    C: Clock + Send,
    G: Gate,
>(
    rt: &R,
    alloc: Global,
    words: &[String],
    script: &mut S,
    out: &mut K,
    session: D,
    tabs: D,
    clock: &mut C,
    gate: &G,
) -> (Status, D, D)
    ensures { IsDriven
        (found (map string_bytes words.now) (S.left script.old) D.modelled
        (disks D.history D.failed session tabs) (disks D.history D.failed result.1 result.2))
        (Rose (S.faults script.old) (S.faults script.new)) (Rose (K.faults out.old) (K.faults out.new))
        (K.written out.old) (K.written out.new)
        (script.new ≡ script.old) (result.1 ≡ session) (result.2 ≡ tabs) result.0 }
{
    if wants_inline(words) {
        return drive_inline(alloc, words, script, out, session, tabs, clock);
    }
    let (status, session, tabs) = attempt(
        rt, alloc, words, script, out, session, tabs, clock, gate,
    );
    let status = conclude(alloc, out, status);
    (status, session, tabs)
}

// All but the last line.
fn attempt<
    R: Threads + Wait + Sync,
    S: Source,
    K: Sink,
    D: SessionDisk + Send,
    C: Clock + Send,
    G: Gate,
>(
    rt: &R,
    alloc: Global,
    words: &[String],
    script: &mut S,
    out: &mut K,
    session: D,
    tabs: D,
    clock: &mut C,
    gate: &G,
) -> (Status, D, D)
    ensures { IsAttempted
        (found (map string_bytes words.now) (S.left script.old) D.modelled
        (disks D.history D.failed session tabs) (disks D.history D.failed result.1 result.2))
        (Rose (S.faults script.old) (S.faults script.new))
        (sunk K.written K.faults out.old) (sunk K.written K.faults out.new)
        (script.new ≡ script.old) (result.1 ≡ session) (result.2 ≡ tabs) result.0 }
{
    let Prepared { text, writers } = match prepare(alloc, words, script, session, tabs, clock) {
        Ok(prepared) => prepared,
        Err(refused) => return refused,
    };
    let (writers, ran) = run_script_beside(rt, alloc, gate, writers, out, clock, &text);
    close_run(writers, ran)
}
