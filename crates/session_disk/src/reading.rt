//! A source, read to its end.
ghost use Rattle.std.specs.Prelude.{◌≡◌, ◌<◌, ◌≤◌, length, IfOk, IsErrOf};
ghost use Rattle.session_disk.specs.Reading.{Lengthens, ReadsPiece, ReadsAll, ReadHasCause};

use crate::failure::{Failed, ReadError};
use crate::stream::Source;
use std::alloc::Global;

/// How many bytes are asked for at a time.
const PIECE: usize = 65_536;

/// All bytes of the source, where they are no more than the limit. Of a longer one a byte beyond the limit is read. It
/// takes time in the bytes that are read, and memory for twice as many and for one piece of 64 KiB.
pub fn read_to_end<S: Source>(
    alloc: Global,
    source: &mut S,
    limit: usize,
) -> Result<Vec<u8>, ReadError>
    ensures short { IfOk result (λ bytes. length bytes.items ≤ limit) }
    ensures bytes { ReadsAll limit (S.left source.old) (S.left source.new) result }
    ensures cause { ReadHasCause (S.faults source.old) (S.faults source.new) result }
{
    let mut bytes = Vec::new(alloc);
    let mut buffer = Vec::from_array(alloc, [0; PIECE])?;
    while bytes.len() <= limit {
        let room = (limit - bytes.len()).saturating_add(1).min(PIECE);
        match read_piece(source, &mut buffer[..room], &mut bytes) {
            Ok(true) => {}
            Ok(false) => return Ok(bytes),
            Err(error) => return Err(error),
        }
    }
    Err(ReadError::TooLong)
}

// Moves some bytes of the source to the end of a list, and answers whether there were any.
fn read_piece<S: Source>(
    source: &mut S,
    buffer: &mut [u8],
    bytes: &mut Vec<u8>,
) -> Result<bool, ReadError>
    requires { 0 < length buffer.old }
    ensures piece { IfOk result (λ more.
        ReadsPiece (S.left source.old) (S.left source.new) bytes.old.items bytes.new.items more) }
    ensures grown { IfOk result (λ more. Lengthens bytes.old.items bytes.new.items (length buffer.old) more) }
    ensures any_length { IsErrOf result ReadError.TooLong → ⊥ }
    ensures cause { ReadHasCause (S.faults source.old) (S.faults source.new) result }
{
    let count = match source.read(buffer) {
        Ok(count) => count,
        Err(Failed) => return Err(ReadError::Failed),
    };
    bytes.extend_from_slice(&buffer[..count])?;
    Ok(count > 0)
}
