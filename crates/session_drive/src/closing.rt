//! The last line of a run. It is made for an answer, before any of it is written; a sink that fails cuts it short, and
//! may change the answer.
ghost use Rattle.std.specs.Prelude.{◌≡◌, ◌≢◌, ◌⊎◌, ◌≤◌};
ghost use Rattle.std.specs.String.{string_bytes};
ghost use Rattle.session_disk.specs.Causes.{Rose};
ghost use Rattle.run_words.specs.Outcome.{last_line, unsaid};
ghost use Rattle.script_run.specs.Doing.{sunk};
ghost use Rattle.session_drive.specs.Closing.{Concludes, IsLineOf, WritesLine};

use run_words::Status;
use session_disk::{Sink, write_all};
use std::alloc::Global;

// An answer and its last line.
#[derive(Drop)]
struct Closing {
    status: Status,
    line: String,
}

/// Writes the last line of a run, and answers what the run answers.
pub(crate) fn conclude<K: Sink>(alloc: Global, out: &mut K, status: Status) -> Status
    ensures { Concludes (sunk K.written K.faults out.old) (sunk K.written K.faults out.new) status result }
{
    let closing = close(alloc, status);
    finish(out, &closing)
}

// The answer with its line; where there is no memory for the line, want of memory.
fn close(alloc: Global, status: Status) -> Closing
    ensures closing { (result.status ≡ status) ⊎ ((result.status ≡ Status.Memory) × (status ≢ Status.Write)) }
    ensures line { IsLineOf result.status (string_bytes result.line) }
{
    match status.last_line(alloc) {
        Ok(line) => Closing { status, line },
        Err(_) => Closing {
            status: Status::Memory,
            line: String::new(alloc),
        },
    }
}

// Writes the line, and answers what the run answers.
fn finish<K: Sink>(out: &mut K, closing: &Closing) -> Status
    requires { IsLineOf closing.now.status (string_bytes closing.now.line) }
    ensures status { (result ≡ closing.now.status)
        ⊎ ((result ≡ unsaid closing.now.status) × Rose (K.faults out.old) (K.faults out.new)) }
    ensures output { WritesLine (K.written out.old) (K.written out.new)
        (Rose (K.faults out.old) (K.faults out.new)) closing.now.status result }
    ensures later { K.faults out.old ≤ K.faults out.new }
{
    match write_all(out, closing.last_line()) {
        Ok(()) => closing.status,
        Err(_) => closing.status.unsaid(),
    }
}

impl Closing {
    // The last line; that of want of memory is written without an allocation.
    fn last_line(&self) -> &[u8]
        requires { IsLineOf self.now.status (string_bytes self.now.line) }
        ensures { result.now ≡ last_line self.now.status }
    {
        match self.status {
            Status::Memory => b"fault memory\n",
            _ => self.line.as_bytes(),
        }
    }
}
