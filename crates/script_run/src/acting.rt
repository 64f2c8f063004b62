//! A line of a script, acted on by the browser.
//! A line that is passed over asks nothing.
ghost use Rattle.std.specs.Prelude.{◌≡◌, IfOk, OnOk};
ghost use Rattle.std.specs.List.{AllByRecursion};
ghost use Rattle.compactor.specs.session.SessionKind.{IsCommand as IsSessionCommand};
ghost use Rattle.tabs_compactor.specs.TabsKind.{IsCommand as IsTabsCommand};
ghost use Rattle.browser_driver.specs.Acts.{act};
ghost use Rattle.script_lines.specs.Ranges.{IsVerb};
ghost use Rattle.script_run.specs.Acting.{ActsOnLine, session_asked, syncs, tabs_asked};
ghost use Rattle.script_run.specs.Closed.{LeadsClosed};
ghost use Rattle.script_run.specs.Script.{acted, line_acted};
ghost use Rattle.script_run.specs.Segments.{is_sync, wants_sync};

use crate::asking::{Asked, Work, wants_compaction, wants_sync};
use browser_driver::{ActError, Browser, Issued};
use run_words::Why;
use script_lines::{LineError, Verb, read_line};
use std::alloc::Global;

/// Why a line asks nothing of the journals.
#[derive(Clone, Copy)]
pub enum Unasked {
    /// The line is refused.
    Refused(Why),
    /// Memory ran out.
    Memory,
}

/// Reads a line and does its verb, which takes what both take. After an error the browser is as it was.
pub fn act_on(alloc: Global, browser: &mut Browser, line: &[u8]) -> Result<Asked, Unasked>
    ensures acts { ActsOnLine (line_acted line.now browser.old) browser.old browser.new result }
    ensures sync { IfOk result (λ asked. syncs asked ≡ is_sync line.now) }
    ensures session { IfOk result (λ asked. AllByRecursion IsSessionCommand (session_asked asked)) }
    ensures tabs { IfOk result (λ asked. AllByRecursion IsTabsCommand (tabs_asked asked)) }
    ensures closed { IfOk result (λ asked. LeadsClosed browser.old (tabs_asked asked) browser.new) }
{
    match read_line(alloc, line) {
        Ok(Some(verb)) => act(browser, &verb),
        Ok(None) => Ok(Asked::Work(Work {
            session: Vec::new(alloc),
            tabs: Vec::new(alloc),
            compacts: false,
        })),
        Err(LineError::Fault(fault)) => Err(Unasked::Refused(Why::Line(fault))),
        Err(LineError::Memory) => Err(Unasked::Memory),
    }
}

// Does a verb.
fn act(browser: &mut Browser, verb: &Verb) -> Result<Asked, Unasked>
    requires { IsVerb verb.now }
    ensures acts { ActsOnLine (acted verb.now (act verb.now browser.old)) browser.old browser.new result }
    ensures sync { IfOk result (λ asked. syncs asked ≡ wants_sync verb.now) }
    ensures session { IfOk result (λ asked. AllByRecursion IsSessionCommand (session_asked asked)) }
    ensures tabs { IfOk result (λ asked. AllByRecursion IsTabsCommand (tabs_asked asked)) }
    ensures closed { IfOk result (λ asked. LeadsClosed browser.old (tabs_asked asked) browser.new) }
{
    if wants_sync(verb) {
        return Ok(Asked::Sync);
    }
    match browser.act(verb) {
        Ok(Issued { session, tabs, .. }) => Ok(Asked::Work(Work {
            session: session.into_vec(),
            tabs: tabs.into_vec(),
            compacts: wants_compaction(verb),
        })),
        Err(ActError::Refused(fault)) => Err(Unasked::Refused(Why::Verb(fault))),
        Err(ActError::Memory) => Err(Unasked::Memory),
    }
}
