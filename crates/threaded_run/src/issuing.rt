//! A segment of a script, acted on line by line. What each of them asks is put into the queue of a run before the next
//! one is read, and nothing is waited for but room in the queue.
ghost use Rattle.std.specs.Prelude.{◌≡◌, suc, ◌+◌, ◌≤◌, ◌^◌, true, length, [], ◌∷◌};
ghost use Rattle.command_queue.specs.Passes.{IsIssuerOf};
ghost use Rattle.command_queue.specs.Seats.{IsIssuerSeatOf};
ghost use Rattle.script_lines.specs.Lines.{lines};
ghost use Rattle.script_run.specs.Segments.{segment_from, synced_steps};
ghost use Rattle.script_run.specs.Steps.{items_of};
ghost use Rattle.threaded_run.specs.Issuers.{HasLooked, IsIssuer, Puts};
ghost use Rattle.threaded_run.specs.Issuing.{EndsAs, HasPut, closing_items};

use crate::gate::Gate;
use crate::putting::{Issuer, RunQueue, put, put_work};
use browser_driver::Browser;
use command_queue::{AckBoard, IssuerSeat, Word};
use script_lines::first_line;
use script_run::{Asked, Ended, Unasked, act_on};
use std::alloc::Global;
use std::sync::Wait;
use writer_core::Item;

/// How far the lines of a segment were put.
#[derive(Clone, Copy)]
pub(crate) enum Issued<'a> {
    /// All of them, and the segment ends so.
    Over(Ended<'a>),
    /// Up to one at which memory ran out.
    Memory,
    /// Up to one before which it was seen that the writer has ended.
    Stopped,
}

/// Acts on each line, up to the first that asks for a sync or is refused, where so many lines were read before, and
/// puts what it asks; then a sync, where the segment is over, and the end in any case. It leaves the lines from one on
/// before which the writer is seen to have ended. It waits where the queue is full, and takes what the browser takes.
pub(crate) fn issue<'a, R: Wait, G: Gate>(
    rt: &R,
    queue: &RunQueue,
    board: &AckBoard,
    gate: &G,
    alloc: Global,
    issuer: Issuer,
    browser: Browser,
    number: u64,
    text: &'a [u8],
) -> (Issuer, Browser, Issued<'a>)
    requires issuer { IsIssuer queue.now board.now issuer }
    requires short { number + length text.now ≤ 2 ^ 30 }
    ensures issuer { IsIssuer queue.now board.now result.0 }
    ensures put { HasPut (items_of (synced_steps (segment_from (suc number) browser (lines text.now)))) (Item.End ∷ [])
        issuer result.0 result.2 }
    ensures ends { EndsAs number text.now browser result.2 result.0.seat result.1 }
{
    let (issuer, last, issued) = issue_lines(
        rt, queue, board, gate, alloc, issuer, browser, number, text,
    );
    let issuer = put_sync(rt, queue, gate, issuer, &issued);
    let issuer = put(rt, queue, gate, issuer, Item::End);
    (issuer, last, issued)
}

// Puts what the lines ask.
fn issue_lines<'a, R: Wait, G: Gate>(
    rt: &R,
    queue: &RunQueue,
    board: &AckBoard,
    gate: &G,
    alloc: Global,
    mut issuer: Issuer,
    mut browser: Browser,
    number: u64,
    text: &'a [u8],
) -> (Issuer, Browser, Issued<'a>)
    requires issuer { IsIssuer queue.now board.now issuer }
    requires short { number + length text.now ≤ 2 ^ 30 }
    ensures issuer { IsIssuer queue.now board.now result.0 }
    ensures put { HasPut (items_of (segment_from (suc number) browser (lines text.now)).steps) [] issuer result.0
        result.2 }
    ensures ends { EndsAs number text.now browser result.2 result.0.seat result.1 }
{
    let mut count = number;
    let mut rest = text;
    while !rest.is_empty() {
        if has_ended(board, &mut issuer.seat) {
            return (issuer, browser, Issued::Stopped);
        }
        let (line, others) = first_line(rest);
        count += 1;
        let work = match act_on(alloc, &mut browser, line) {
            Ok(Asked::Work(work)) => work,
            Ok(Asked::Sync) => return (issuer, browser, Issued::Over(Ended::Sync(count, others))),
            Err(Unasked::Refused(why)) => {
                return (
                    issuer,
                    browser,
                    Issued::Over(Ended::Script(Some((count, why)))),
                );
            }
            Err(Unasked::Memory) => return (issuer, browser, Issued::Memory),
        };
        issuer = put_work(rt, queue, gate, issuer, work);
        rest = others;
    }
    (issuer, browser, Issued::Over(Ended::Script(None)))
}

// Whether the writer is seen to have ended.
fn has_ended(board: &AckBoard, seat: &mut IssuerSeat) -> bool
    requires seat { IsIssuerSeatOf board.now seat.old }
    ensures seat { IsIssuerSeatOf board.now seat.new }
    ensures saw { result ≡ true → HasLooked seat.new }
{
    board.seen(seat, Word::Ended) != 0
}

// Puts a sync, where the segment is over.
fn put_sync<R: Wait, G: Gate>(
    rt: &R,
    queue: &RunQueue,
    gate: &G,
    issuer: Issuer,
    issued: &Issued<'_>,
) -> Issuer
    requires { IsIssuerOf queue.now issuer.pass }
    ensures { Puts queue.now (closing_items issued.now) issuer result }
{
    match issued {
        Issued::Over(_) => put(rt, queue, gate, issuer, Item::Sync),
        Issued::Memory | Issued::Stopped => issuer,
    }
}
