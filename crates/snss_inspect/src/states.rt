//! A report on what the files of both families read to.
ghost use Rattle.std.specs.Prelude.{◌≡◌, ◌≤◌, IfOk, IfErr};
ghost use Rattle.session_disk.specs.Images.{as_it_reads};
ghost use Rattle.file_rotation.specs.Faults.{RotateHasCause};
ghost use Rattle.file_rotation.specs.Recovery.{Recovers};
ghost use Rattle.window_state.specs.States.{State};
ghost use Rattle.window_state.specs.Views.{view};
ghost use Rattle.closed_entries.specs.States.{State as ClosedState};
ghost use Rattle.closed_entries.specs.Shown.{shown};
ghost use Rattle.compactor.specs.session.SessionKind.{session_kind};
ghost use Rattle.tabs_compactor.specs.TabsKind.{tabs_kind};
ghost use Rattle.session_disk.specs.Causes.{Rose};
ghost use Rattle.report_lines.specs.Reports.{Adds, ReportHasCause};
ghost use Rattle.snss_inspect.specs.Answers.{StopsBy, failed};
ghost use Rattle.snss_inspect.specs.Verdicts.{IsStateVerdict, Verdict, images, state_text};

use crate::stops::{report_status, rotate_status};
use closed_entries::{Entry, shown};
use compactor::SessionMachine;
use file_rotation::{RotateFault, recover};
use inspect_words::{InspectStatus, StateReport};
use report_lines::ReportFault;
use session_disk::{Family, SessionDisk, Sink};
use std::alloc::Global;
use tabs_compactor::TabsMachine;
use view_reports::{put_json, put_lines};
use window_state::{View, view};

/// Adds the report on what the files read to. It needs memory for the states of both families, and one buffer for files
/// of any size.
pub(crate) fn put_states<K: Sink, D: SessionDisk>(
    alloc: Global,
    report: StateReport,
    session: &mut D,
    tabs: &mut D,
    out: &mut K,
    waiting: &mut Vec<u8>,
) -> Result<(), InspectStatus>
    ensures report { D.modelled → (v : Verdict) →
        IsStateVerdict report (images D.history session.old tabs.old) v →
        Adds (K.written out.old) (K.written out.new) waiting.old.items waiting.new.items v.text result }
    ensures session_unchanged { D.history session.new ≡ D.history session.old }
    ensures tabs_unchanged { D.history tabs.new ≡ D.history tabs.old }
    ensures cause { IfErr result (StopsBy (failed D.failed session.old tabs.old session.new tabs.new)
        (Rose (K.faults out.old) (K.faults out.new))) }
    ensures later { K.faults out.old ≤ K.faults out.new }
{
    let view = match recovered_view(alloc, session) {
        Ok(view) => view,
        Err(fault) => return Err(rotate_status(Family::Session, fault)),
    };
    let entries = match recovered_entries(alloc, tabs) {
        Ok(entries) => entries,
        Err(fault) => return Err(rotate_status(Family::Tabs, fault)),
    };
    match put_state(alloc, report, &view, &entries, out, waiting) {
        Ok(()) => Ok(()),
        Err(fault) => Err(report_status(fault)),
    }
}

fn put_state<K: Sink>(
    alloc: Global,
    report: StateReport,
    view: &View,
    entries: &[Entry],
    out: &mut K,
    waiting: &mut Vec<u8>,
) -> Result<(), ReportFault>
    ensures report { Adds (K.written out.old) (K.written out.new) waiting.old.items waiting.new.items
        (state_text report view.now entries.now) result }
    ensures cause { ReportHasCause (K.faults out.old) (K.faults out.new) result }
{
    match report {
        StateReport::Lines => put_lines(view, entries, out, waiting),
        StateReport::Json => put_json(alloc, view, entries, out, waiting),
    }
}

// The view of the state to which a session's files read.
fn recovered_view<D: SessionDisk>(alloc: Global, disk: &mut D) -> Result<View, RotateFault>
    ensures view { D.modelled → (state : State) →
        Recovers session_kind (as_it_reads (D.history disk.old).now) state → IfOk result (λ v. v ≡ view state) }
    ensures unchanged { D.history disk.new ≡ D.history disk.old }
    ensures cause { RotateHasCause (D.failed disk.old) (D.failed disk.new) result }
{
    let recovered = recover::<SessionMachine, D>(alloc, disk)?;
    let view = view(alloc, &recovered.state)?;
    Ok(view)
}

// The entries of the state to which the files of closed tabs and windows read, the newest first.
fn recovered_entries<D: SessionDisk>(alloc: Global, disk: &mut D) -> Result<Vec<Entry>, RotateFault>
    ensures entries { D.modelled → (state : ClosedState) →
        Recovers tabs_kind (as_it_reads (D.history disk.old).now) state → IfOk result (λ v. v.items ≡ shown state) }
    ensures unchanged { D.history disk.new ≡ D.history disk.old }
    ensures cause { RotateHasCause (D.failed disk.old) (D.failed disk.new) result }
{
    let recovered = recover::<TabsMachine, D>(alloc, disk)?;
    let entries = shown(alloc, &recovered.state)?;
    Ok(entries)
}
