//! Copies of commands.
ghost use Rattle.std.specs.Prelude.{◌≡◌, IfOk};

use crate::command::TabsCommand;
use std::alloc::AllocError;

impl TabsCommand {
    /// The same command. It makes an allocation for each byte string.
    pub fn copy(&self) -> Result<TabsCommand, AllocError>
        ensures { IfOk result (λ command. command ≡ self.now) }
    {
        if let TabsCommand::Raw(raw) = self {
            return Ok(TabsCommand::Raw(raw.copy()?));
        }
        let (id, row) = self.row();
        match row.own()? {
            Some(fields) => Ok(TabsCommand::from_fields(id, fields)),
            None => unreachable!(),
        }
    }
}
