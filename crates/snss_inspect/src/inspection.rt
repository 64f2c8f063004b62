//! The top call: the words, both disks and the report.
ghost use Rattle.std.specs.Prelude.{◌≡◌, ◌⊎◌, ◌≤◌, map, IfErr, IfOk, IsNone, Some};
ghost use Rattle.std.specs.String.{string_bytes};
ghost use Rattle.session_disk.specs.Causes.{Rose};
ghost use Rattle.inspect_words.specs.declared.status.InspectStatus.TheVariants.{Usage};
ghost use Rattle.inspect_words.specs.Outcome.{usage_line};
ghost use Rattle.inspect_words.specs.Stamps.{HasStamp};
ghost use Rattle.inspect_words.specs.Words.{order_of};
ghost use Rattle.report_lines.specs.Reports.{Adds};
ghost use Rattle.snss_inspect.specs.Answers.{Answers, Ends, HasCause, StopsBy, failed};
ghost use Rattle.snss_inspect.specs.Verdicts.{IsVerdict, Verdict, images};

use crate::files::put_file;
use crate::listing::put_all_files;
use crate::states::put_states;
use inspect_words::{InspectStatus, Order, read_words};
use report_lines::{PIECE, send_rest};
use session_disk::{Family, SessionDisk, Sink, write_all};
use std::alloc::Global;

/// Writes the report that the words ask for on the files of both disks, and hands the disks back. It changes no file. A
/// damaged or foreign file is reported and is no refusal.
///
/// Files of any size are read through one buffer, and a report of any length goes through another. Beside them it needs
/// memory for the states that the files read to.
///
/// The clause on what is written holds where the disks are modelled; that on words that aren't in the grammar always.
pub fn inspect<K: Sink, D: SessionDisk>(
    alloc: Global,
    words: &[String],
    out: &mut K,
    session: D,
    tabs: D,
) -> (InspectStatus, D, D)
    // Where nothing failed, answer and output are those of the verdict; else a prefix of its text was written.
    ensures report { (D.modelled ⊎ IsNone (order_of (map string_bytes words.now))) → (v : Verdict) →
        IsVerdict (order_of (map string_bytes words.now)) (images D.history session tabs) v →
        Answers (K.written out.old) (K.written out.new) v result.0 }
    ensures cause { HasCause D.modelled (order_of (map string_bytes words.now)) (images D.history session tabs)
        (failed D.failed session tabs result.1 result.2) (Rose (K.faults out.old) (K.faults out.new)) result.0 }
    // Both disks are as they were: their files, what was told, and how many files were made.
    ensures session_unchanged { D.history result.1 ≡ D.history session }
    ensures tabs_unchanged { D.history result.2 ≡ D.history tabs }
    ensures not_called { IsNone (order_of (map string_bytes words.now)) → (result.1 ≡ session) × (result.2 ≡ tabs) }
{
    let (mut session, mut tabs) = (session, tabs);
    let status = respond(alloc, words, &mut session, &mut tabs, out);
    (status, session, tabs)
}

// The same over disks that the caller keeps.
fn respond<K: Sink, D: SessionDisk>(
    alloc: Global,
    words: &[String],
    session: &mut D,
    tabs: &mut D,
    out: &mut K,
) -> InspectStatus
    ensures report { (D.modelled ⊎ IsNone (order_of (map string_bytes words.now))) → (v : Verdict) →
        IsVerdict (order_of (map string_bytes words.now)) (images D.history session.old tabs.old) v →
        Answers (K.written out.old) (K.written out.new) v result }
    ensures cause { HasCause D.modelled (order_of (map string_bytes words.now))
        (images D.history session.old tabs.old) (failed D.failed session.old tabs.old session.new tabs.new)
        (Rose (K.faults out.old) (K.faults out.new)) result }
    ensures session_unchanged { D.history session.new ≡ D.history session.old }
    ensures tabs_unchanged { D.history tabs.new ≡ D.history tabs.old }
    ensures not_called { IsNone (order_of (map string_bytes words.now)) →
        (session.new ≡ session.old) × (tabs.new ≡ tabs.old) }
{
    match read_words(words) {
        Some(order) => answer(alloc, order, session, tabs, out),
        None => refuse(out),
    }
}

// The answer to words that aren't in the grammar.
fn refuse<K: Sink>(out: &mut K) -> InspectStatus
    ensures { Ends (K.written out.old) (K.written out.new) (Rose (K.faults out.old) (K.faults out.new))
        usage_line Usage result }
{
    match write_all(out, b"usage\n") {
        Ok(()) => InspectStatus::Usage,
        Err(_) => InspectStatus::Write,
    }
}

// The answer to an order.
fn answer<K: Sink, D: SessionDisk>(
    alloc: Global,
    order: Order,
    session: &mut D,
    tabs: &mut D,
    out: &mut K,
) -> InspectStatus
    requires { HasStamp order }
    ensures report { D.modelled → (v : Verdict) → IsVerdict (Some order) (images D.history session.old tabs.old) v →
        Answers (K.written out.old) (K.written out.new) v result }
    ensures cause { HasCause D.modelled (Some order) (images D.history session.old tabs.old)
        (failed D.failed session.old tabs.old session.new tabs.new) (Rose (K.faults out.old) (K.faults out.new)) result }
    ensures session_unchanged { D.history session.new ≡ D.history session.old }
    ensures tabs_unchanged { D.history tabs.new ≡ D.history tabs.old }
{
    let mut waiting = match Vec::with_capacity(alloc, PIECE) {
        Ok(waiting) => waiting,
        Err(_) => return InspectStatus::Memory,
    };
    match put_ordered(alloc, order, session, tabs, out, &mut waiting) {
        Ok(status) => end(status, out, &mut waiting),
        Err(status) => status,
    }
}

// Adds the report that is asked for, and answers what it ends with; or what stopped it.
fn put_ordered<K: Sink, D: SessionDisk>(
    alloc: Global,
    order: Order,
    session: &mut D,
    tabs: &mut D,
    out: &mut K,
    waiting: &mut Vec<u8>,
) -> Result<InspectStatus, InspectStatus>
    requires { HasStamp order }
    ensures report { D.modelled → (v : Verdict) → IsVerdict (Some order) (images D.history session.old tabs.old) v →
        Adds (K.written out.old) (K.written out.new) waiting.old.items waiting.new.items v.text result
        × IfOk result (λ status. status ≡ v.status) }
    ensures ends { IfOk result (HasCause D.modelled (Some order) (images D.history session.old tabs.old) (λ _. ⊥) ⊥) }
    ensures session_unchanged { D.history session.new ≡ D.history session.old }
    ensures tabs_unchanged { D.history tabs.new ≡ D.history tabs.old }
    ensures cause { IfErr result (StopsBy (failed D.failed session.old tabs.old session.new tabs.new)
        (Rose (K.faults out.old) (K.faults out.new))) }
    ensures later { K.faults out.old ≤ K.faults out.new }
{
    match order {
        Order::List => {
            put_all_files(alloc, session, tabs, out, waiting)?;
            Ok(InspectStatus::Done)
        }
        Order::OfState(report) => {
            put_states(alloc, report, session, tabs, out, waiting)?;
            Ok(InspectStatus::Done)
        }
        Order::OfFile {
            report,
            family,
            stamp,
        } => match family {
            Family::Session => put_file(alloc, report, family, stamp, session, out, waiting),
            Family::Tabs => put_file(alloc, report, family, stamp, tabs, out, waiting),
        },
    }
}

// Sends what waits of a report, which ends with this answer.
fn end<K: Sink>(status: InspectStatus, out: &mut K, waiting: &mut Vec<u8>) -> InspectStatus
    ensures { Ends (K.written out.old) (K.written out.new) (Rose (K.faults out.old) (K.faults out.new))
        waiting.old.items status result }
{
    match send_rest(out, waiting) {
        Ok(()) => status,
        Err(_) => InspectStatus::Write,
    }
}
