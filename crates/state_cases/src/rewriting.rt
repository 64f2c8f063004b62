//! Commands that are copied and written again, through the trait that journals use.
ghost use Rattle.std.specs.Prelude.{◌≤◌, length};

use machine_law::Machine;
use std::alloc::{AllocError, Global};

/// The id and the payload of a copy of the command.
pub(crate) fn written<M: Machine>(
    alloc: Global,
    command: &M::Command,
) -> Result<(u8, Vec<u8>), AllocError>
    requires { M.is_command command.now }
{
    let copy = M::copy(command)?;
    let mut payload = Vec::new(alloc);
    let id = M::write(&copy, &mut payload)?;
    Ok((id, payload))
}

/// The id and the payload that are written for the command of an id and a payload.
pub(crate) fn written_again<M: Machine>(
    alloc: Global,
    id: u8,
    payload: &[u8],
) -> Result<(u8, Vec<u8>), AllocError>
    requires { length payload.now ≤ 65534 }
{
    let command = M::read(alloc, id, payload)?;
    written::<M>(alloc, &command)
}
