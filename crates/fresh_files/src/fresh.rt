//! The bytes that are written: a fresh file, which restates a state, and the frame of one command. The marker is the
//! last frame of a fresh file, so no shorter prefix of it counts.
ghost use Rattle.std.specs.Prelude.{◌≡◌, ◌++◌, IfOk, OnOk, OnErr};
ghost use Rattle.std.specs.List.{AllByRecursion};
ghost use Rattle.snss_frames.specs.Frame.{frame_bytes};
ghost use Rattle.fresh_files.specs.Fresh.{frame_of, fresh, IsWritten};

use machine_law::Machine;
use snss_frames::{FRAME_HEAD, Version, complete_frame, write_frame, write_header};
use std::alloc::{AllocError, Global};

/// The bytes of a file that restates a state: header, a frame a command of its compaction, marker. The state is
/// restated once, and the bytes grow by doubling.
pub fn fresh_file<M: Machine>(alloc: Global, state: &M::State) -> Result<Vec<u8>, AllocError>
    ensures bytes { IfOk result (λ bytes. bytes.items ≡ fresh M.kind state.now) }
    ensures written { IfOk result (λ _. AllByRecursion (IsWritten M.kind) (M.kind.compaction state.now)) }
{
    let commands = M::compact(alloc, state)?;
    let mut bytes = Vec::from_slice(alloc, &write_header(Version::Three))?;
    for command in &commands {
        push_frame::<M>(command, &mut bytes)?;
    }
    write_frame(255, &[], &mut bytes)?;
    Ok(bytes)
}

/// Appends the frame of a command, built where it stands. After an `Err` `out` is as before.
pub fn push_frame<M: Machine>(command: &M::Command, out: &mut Vec<u8>) -> Result<(), AllocError>
    requires { M.is_command command.now }
    ensures ok { OnOk result (out.new.items ≡ out.old.items ++ frame_bytes (frame_of M.kind command.now)) }
    ensures written { OnOk result (IsWritten M.kind command.now) }
    ensures err { OnErr result (out.new.items ≡ out.old.items) }
{
    let start = out.len();
    out.extend_from_slice(&[0; FRAME_HEAD])?;
    match M::write(command, out) {
        Ok(id) => {
            complete_frame(start, id, out);
            Ok(())
        }
        Err(error) => {
            out.truncate(start);
            Err(error)
        }
    }
}
