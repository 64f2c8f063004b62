//! What is to be run: the script that the words ask for, and what limits the journals.
//! A script is read from the source, up to a number of bytes, or generated.
ghost use Rattle.std.specs.Prelude.{◌≡◌, ◌≤◌, MatchResult, map};
ghost use Rattle.std.specs.String.{string_bytes};
ghost use Rattle.session_disk.specs.Causes.{Rose};
ghost use Rattle.run_words.specs.Words.{InRange, order_of};
ghost use Rattle.session_drive.specs.Causes.{HasCause};
ghost use Rattle.session_drive.specs.Reading.{IsAsked, IsScript, read_causes, script_causes};
ghost use Rattle.session_drive.specs.Run.{IsGenerated, ReadsNone};

use log_writer::Limits;
use run_words::{Long, Order, Origin, Status, read_words};
use script_lines::generated;
use session_disk::{ReadError, Source, read_to_end};
use std::alloc::Global;

/// What is to be run: a script, and how much goes into one file.
#[derive(Drop)]
pub(crate) struct Task {
    pub text: Vec<u8>,
    pub limits: Limits,
}

/// What the words ask for, with its script.
pub(crate) fn read<S: Source>(
    alloc: Global,
    words: &[String],
    script: &mut S,
) -> Result<Task, Status>
    ensures read { MatchResult result
        (λ task. IsAsked (order_of (map string_bytes words.now)) (S.left script.old) task.text.items task.limits)
        (HasCause (read_causes (order_of (map string_bytes words.now)) (S.left script.old)
        (Rose (S.faults script.old) (S.faults script.new)))) }
    ensures untouched { ReadsNone (order_of (map string_bytes words.now)) → script.new ≡ script.old }
{
    let Some(Order { origin, limits }) = read_words(words) else {
        return Err(Status::Usage);
    };
    let text = script_of(alloc, origin, script)?;
    Ok(Task { text, limits })
}

// The script that comes so.
fn script_of<S: Source>(alloc: Global, origin: Origin, script: &mut S) -> Result<Vec<u8>, Status>
    requires { InRange origin }
    ensures comes { MatchResult result (λ text. IsScript origin (S.left script.old) text.items)
        (HasCause (script_causes origin (S.left script.old) (Rose (S.faults script.old) (S.faults script.new)))) }
    ensures untouched { IsGenerated origin → script.new ≡ script.old }
{
    match origin {
        Origin::Script { most } => match read_to_end(alloc, script, most) {
            Ok(text) => Ok(text),
            Err(ReadError::Failed) => Err(Status::Read),
            Err(ReadError::TooLong) => Err(Status::TooLong {
                what: Long::Script,
                needed: most as u64 + 1,
            }),
            Err(ReadError::Memory) => Err(Status::Memory),
        },
        Origin::Generated { x, count } => match generated(alloc, x, count) {
            Ok(text) => Ok(text),
            Err(_) => Err(Status::Memory),
        },
    }
}
