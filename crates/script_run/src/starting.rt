//! The start of a run: the line that says what both states show, the browser of both, and the tidying of both.
//! A tab without pages isn't seen, nor is a window without such tabs.
ghost use Rattle.std.specs.Prelude.{◌≡◌, ℕ, List, ◌<◌, ◌≤◌, ◌^◌, length, None, Err, IfOk, IfErr};
ghost use Rattle.run_words.specs.Outcome.{start_line};
ghost use Rattle.script_run.specs.Counts.{counts_of, shown_counts, tab_count};
ghost use Rattle.script_run.specs.Doing.{DoesUnsaid, sunk};
ghost use Rattle.script_run.specs.Runs.{logs, states_of};
ghost use Rattle.script_run.specs.Script.{first_browser, tidying_steps};
ghost use Rattle.script_run.specs.Starting.{Starts};
ghost use Rattle.script_run.specs.Whole.{HasStarted, RunsWhole};

use crate::halt::Halt;
use crate::handling::handle_commands;
use crate::run_state::RunState;
use browser_driver::Browser;
use compactor::SessionMachine;
use machine_law::Machine;
use run_words::{Counts, start_line};
use session_disk::{Clock, SessionDisk, Sink, write_all};
use std::alloc::Global;
use tabs_compactor::TabsMachine;
use window_state::{View, ViewWindow, view};
use writer_core::Writers;

/// Starts a run over journals that were just opened: writes the line of a start and tidies both states. Where it halts,
/// the journals come back with the reason. It takes time and memory in both states.
pub fn start<K: Sink, D: SessionDisk, C: Clock>(
    alloc: Global,
    mut writers: Writers<SessionMachine, TabsMachine, D>,
    out: &mut K,
    clock: &mut C,
) -> Result<RunState<D>, (Writers<SessionMachine, TabsMachine, D>, Halt)>
    requires session_works { writers.session.failed ≡ None }
    requires tabs_work { writers.tabs.failed ≡ None }
    requires session_empty { writers.session.present.count ≡ 0 }
    requires tabs_empty { writers.tabs.present.count ≡ 0 }
    ensures started { IfOk result (λ state. HasStarted writers state
        (sunk K.written K.faults out.old) (sunk K.written K.faults out.new)) }
    ensures halted { IfErr result (λ refused. (text : List ℕ) → length text ≤ 2 ^ 30 → RunsWhole writers text refused.0
        (sunk K.written K.faults out.old) (sunk K.written K.faults out.new) (Err refused.1)) }
{
    writers.session.state().known();
    writers.tabs.state().known();
    let browser = match begin(alloc, &writers, out) {
        Ok(browser) => browser,
        Err(halt) => return Err((writers, halt)),
    };
    match tidy(alloc, &mut writers, clock) {
        Ok(()) => Ok(RunState {
            writers,
            browser,
            number: 0,
            puts: 0,
        }),
        Err(halt) => Err((writers, halt)),
    }
}

// Tidies both states, the session's first.
fn tidy<D: SessionDisk, C: Clock>(
    alloc: Global,
    writers: &mut Writers<SessionMachine, TabsMachine, D>,
    clock: &mut C,
) -> Result<(), Halt>
    requires session_works { writers.old.session.failed ≡ None }
    requires tabs_work { writers.old.tabs.failed ≡ None }
    ensures { DoesUnsaid (tidying_steps (states_of (logs writers.old))) writers.old writers.new result }
{
    let Ok(session) = SessionMachine::tidy(alloc, writers.session.state()) else {
        return Err(Halt::Memory);
    };
    let Ok(tabs) = TabsMachine::tidy(alloc, writers.tabs.state()) else {
        return Err(Halt::Memory);
    };
    match handle_commands(writers, clock, session, tabs) {
        Ok(()) => Ok(()),
        Err(halt) => Err(halt),
    }
}

// Writes the line of a start, and answers the browser of both states. It takes time and memory in the session's view
// and in the closed entries.
fn begin<K: Sink, D: SessionDisk>(
    alloc: Global,
    writers: &Writers<SessionMachine, TabsMachine, D>,
    out: &mut K,
) -> Result<Browser, Halt>
    ensures browser { IfOk result (λ b. b ≡ first_browser (states_of (logs writers.now))) }
    ensures starts { Starts (start_line (counts_of (states_of (logs writers.now))))
        (sunk K.written K.faults out.old) (sunk K.written K.faults out.new) result }
{
    let session = writers.session.state();
    let tabs = writers.tabs.state();
    session.known();
    let Ok(view) = view(alloc, session) else {
        return Err(Halt::Memory);
    };
    let counts = shown_counts(&view, tabs.entries().len());
    if let Err(halt) = say_start(alloc, counts, out) {
        return Err(halt);
    }
    match Browser::from_states(alloc, &view, session.active(), tabs) {
        Ok(browser) => Ok(browser),
        Err(_) => Err(Halt::Memory),
    }
}

// Writes the line of a start with these counts.
fn say_start<K: Sink>(alloc: Global, counts: Counts, out: &mut K) -> Result<(), Halt>
    ensures { Starts (start_line counts)
        (sunk K.written K.faults out.old) (sunk K.written K.faults out.new) result }
{
    let Ok(line) = start_line(alloc, counts) else {
        return Err(Halt::Memory);
    };
    match write_all(out, line.as_bytes()) {
        Ok(()) => Ok(()),
        Err(_) => Err(Halt::Write),
    }
}

// What a view shows, beside so many closed entries.
fn shown_counts(view: &View, entries: usize) -> Counts
    requires { tab_count view.now.windows < 2 ^ 64 }
    ensures { result ≡ shown_counts view.now entries }
{
    let windows = view.windows.as_slice();
    Counts {
        windows: windows.len() as u64,
        tabs: count_tabs(windows),
        entries: entries as u64,
    }
}

// The tabs of all these windows.
fn count_tabs(windows: &[ViewWindow]) -> u64
    requires { tab_count windows.now < 2 ^ 64 }
    ensures { result ≡ tab_count windows.now }
{
    let mut count = 0;
    let mut rest = windows;
    while let [window, others @ ..] = rest {
        count += window.tabs.as_slice().len() as u64;
        rest = others;
    }
    count
}
