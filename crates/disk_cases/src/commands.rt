//! Commands of a session in a step: `tab W T`, `page T I` and `page T I N`, as the parts of a session file are that have
//! these words in `session_files.rt`.
ghost use Rattle.std.specs.Prelude.{IfOk, IfSome};
ghost use Rattle.compactor.specs.session.SessionKind.{IsCommand};
ghost use Rattle.session_commands.specs.Table.{IsSound};

use crate::session_files::put_part;
use case_files::{CaseFault, first_word};
use session_commands::SessionCommand;
use std::alloc::Global;

/// The command of a step that writes one, and `None` of another step.
pub fn read_command(alloc: Global, step: &str) -> Result<Option<SessionCommand>, CaseFault>
    ensures sound { IfOk result (λ read. IfSome read IsSound) }
    ensures command { IfOk result (λ read. IfSome read IsCommand) }
{
    let (word, _) = first_word(step);
    if word != "tab" && word != "page" {
        return Ok(None);
    }
    let mut frame = Vec::new(alloc);
    put_part(alloc, step, &mut frame)?;
    let [_, _, id, payload @ ..] = frame.as_slice() else {
        return Err(CaseFault::Malformed("a command has a frame"));
    };
    if payload.len() > 65_534 {
        return Err(CaseFault::Malformed("a payload has fewer bytes"));
    }
    let command = SessionCommand::read(alloc, *id, payload)?;
    command.known_in_range();
    Ok(Some(command))
}
