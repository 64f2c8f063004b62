//! Copies of commands.
ghost use Rattle.std.specs.Prelude.{◌≡◌, IfOk};

use crate::command::SessionCommand;
use std::alloc::AllocError;

impl SessionCommand {
    /// The same command. It makes an allocation for each byte string.
    pub fn copy(&self) -> Result<SessionCommand, AllocError>
        ensures { IfOk result (λ command. command ≡ self.now) }
    {
        if let SessionCommand::Raw(raw) = self {
            return Ok(SessionCommand::Raw(raw.copy()?));
        }
        let (id, row) = self.row();
        match row.own()? {
            Some(fields) => Ok(SessionCommand::from_fields(id, fields)),
            None => unreachable!(),
        }
    }
}
