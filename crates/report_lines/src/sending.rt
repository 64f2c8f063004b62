//! The sending of what waits: where a line of a report has ended, and where the report has.
ghost use Rattle.std.specs.Prelude.{◌≡◌, ◌<◌, [], length, OnOk, OnErr, MatchResult};
ghost use Rattle.session_disk.specs.Causes.{HasCause};
ghost use Rattle.report_lines.specs.Reports.{IsUnderway, WrotePrefix, Reports};

use session_disk::{Failed, Sink, write_all};

/// Bytes that are sent together. Fewer than so many wait behind a line that has ended.
pub const PIECE: usize = 65_536;

/// Sends all that waits, where that is a whole piece, and else nothing. After a failure a prefix of it was written.
pub fn send_piece<K: Sink>(sink: &mut K, waiting: &mut Vec<u8>) -> Result<(), Failed>
    ensures report { MatchResult result
        (λ _. IsUnderway (K.written sink.old) (K.written sink.new) waiting.new.items waiting.old.items)
        (λ _. WrotePrefix (K.written sink.old) (K.written sink.new) waiting.old.items) }
    ensures bound { OnOk result (length waiting.new.items < 65536) }
    ensures cause { HasCause (K.faults sink.old) (K.faults sink.new) result }
{
    if waiting.len() < PIECE {
        return Ok(());
    }
    match send_rest(sink, waiting) {
        Ok(()) => Ok(()),
        Err(failed) => Err(failed),
    }
}

/// Sends all that waits, as where a report ends. After a failure a prefix of it was written.
pub fn send_rest<K: Sink>(sink: &mut K, waiting: &mut Vec<u8>) -> Result<(), Failed>
    ensures report { Reports (K.written sink.old) (K.written sink.new) waiting.old.items result }
    ensures ok { OnOk result (waiting.new.items ≡ []) }
    ensures err { OnErr result (waiting.new.items ≡ waiting.old.items) }
    ensures cause { HasCause (K.faults sink.old) (K.faults sink.new) result }
{
    match write_all(sink, waiting.as_slice()) {
        Ok(()) => {
            waiting.clear();
            Ok(())
        }
        Err(failed) => Err(failed),
    }
}
