//! A command that no row of the table accepts, kept as its bytes.
ghost use Rattle.std.specs.Prelude.{◌≡◌, ◌≤◌, true, length, is_some, IfOk};
ghost use Rattle.tab_restore_commands.specs.Faults.{fault_of};

use pickle_cells::Blob;
use std::alloc::AllocError;

/// An id and a payload for which no row holds. The initial-state marker is the one with id 255 and no payload.
#[derive(Debug, PartialEq, Eq, Drop)]
pub struct RawCommand {
    pub id: u8,
    pub payload: Blob,
    ghost short: { length payload ≤ 65534 },
    ghost refused: { is_some (fault_of id payload) ≡ true },
}

impl RawCommand {
    /// The same command.
    pub fn copy(&self) -> Result<RawCommand, AllocError>
        ensures { IfOk result (λ raw. raw ≡ self.now) }
    {
        let payload = self.payload.copy()?;
        Ok(RawCommand {
            id: self.id,
            payload,
        })
    }
}
