//! A segment of a script: its lines up to the next one of a sync are acted on one by one.
//! What each of them asks is handled before the next one is read, and nothing is written.
ghost use Rattle.std.specs.Prelude.{◌≡◌, suc, ◌+◌, ◌≤◌, ◌^◌, length, None, IfOk};
ghost use Rattle.script_lines.specs.Lines.{lines};
ghost use Rattle.script_run.specs.Doing.{DoesUnsaid};
ghost use Rattle.script_run.specs.Segments.{EndsSegment, IsFurther, segment_from};

use crate::acting::{Unasked, act_on};
use crate::asking::{Asked, handle_work};
use crate::halt::Halt;
use browser_driver::Browser;
use compactor::SessionMachine;
use run_words::Why;
use script_lines::first_line;
use session_disk::{Clock, SessionDisk};
use std::alloc::Global;
use tabs_compactor::TabsMachine;
use writer_core::Writers;

/// How a segment ends.
#[derive(Clone, Copy)]
pub enum Ended<'a> {
    /// With a line of a sync: so many lines of the script were read, and this text is left.
    Sync(u64, &'a [u8]),
    /// With the script. The number and the reason are those of a line that is refused.
    Script(Option<(u64, Why)>),
}

/// Acts on each line, up to the first that asks for a sync or is refused, where so many lines were read before. It
/// takes what the browser's and the journals' calls take.
pub(crate) fn run_segment<'a, D: SessionDisk, C: Clock>(
    alloc: Global,
    writers: &mut Writers<SessionMachine, TabsMachine, D>,
    clock: &mut C,
    browser: &mut Browser,
    number: u64,
    text: &'a [u8],
) -> Result<Ended<'a>, Halt>
    requires session_works { writers.old.session.failed ≡ None }
    requires tabs_work { writers.old.tabs.failed ≡ None }
    requires short { number + length text.now ≤ 2 ^ 30 }
    ensures steps { DoesUnsaid (segment_from (suc number) browser.old (lines text.now)).steps writers.old writers.new
        result }
    ensures ends { IfOk result (λ ended.
        EndsSegment (segment_from (suc number) browser.old (lines text.now)) browser.old ended browser.new) }
    ensures further { IfOk result (IsFurther number text.now) }
{
    let mut count = number;
    let mut rest = text;
    while !rest.is_empty() {
        let (line, others) = first_line(rest);
        count += 1;
        let work = match act_on(alloc, browser, line) {
            Ok(Asked::Work(work)) => work,
            Ok(Asked::Sync) => return Ok(Ended::Sync(count, others)),
            Err(Unasked::Refused(why)) => return Ok(Ended::Script(Some((count, why)))),
            Err(Unasked::Memory) => return Err(Halt::Memory),
        };
        if let Err(halt) = handle_work(writers, clock, work) {
            return Err(halt);
        }
        rest = others;
    }
    Ok(Ended::Script(None))
}
