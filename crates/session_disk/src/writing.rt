//! Bytes, written whole.
ghost use Rattle.session_disk.specs.Causes.{HasCause};
ghost use Rattle.session_disk.specs.Writing.{WritesAll};

use crate::failure::Failed;
use crate::stream::Sink;

/// Writes all bytes. After a failure some prefix of them was written. It takes no memory of its own.
pub fn write_all<K: Sink>(sink: &mut K, bytes: &[u8]) -> Result<(), Failed>
    ensures bytes { WritesAll (K.written sink.old) (K.written sink.new) bytes.now result }
    ensures cause { HasCause (K.faults sink.old) (K.faults sink.new) result }
{
    let mut rest = bytes;
    while !rest.is_empty() {
        match sink.write(rest) {
            Ok(count) => rest = &rest[count..],
            Err(failed) => return Err(failed),
        }
    }
    Ok(())
}
