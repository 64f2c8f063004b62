//! Numbers in decimal, each behind what stands before it.
ghost use Rattle.std.specs.Prelude.{◌≡◌, ◌++◌, decimal, OnOk};
ghost use Rattle.std.specs.Fmt.{signed_decimal};

use itoa::Buffer;
use std::alloc::AllocError;

/// Appends an id, which may be negative.
pub(crate) fn append_id(before: &[u8], id: i32, waiting: &mut Vec<u8>) -> Result<(), AllocError>
    ensures { OnOk result (waiting.new.items ≡ waiting.old.items ++ (before.now ++ signed_decimal id)) }
{
    waiting.extend_from_slice(before)?;
    waiting.extend_from_slice(Buffer::new().format(id).as_bytes())?;
    Ok(())
}

/// Appends a number of things, or the place of one.
pub(crate) fn append_number(
    before: &[u8],
    number: usize,
    waiting: &mut Vec<u8>,
) -> Result<(), AllocError>
    ensures { OnOk result (waiting.new.items ≡ waiting.old.items ++ (before.now ++ decimal number)) }
{
    waiting.extend_from_slice(before)?;
    waiting.extend_from_slice(Buffer::new().format(number).as_bytes())?;
    Ok(())
}
