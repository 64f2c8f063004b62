//! What a verb issues.
//! The commands are for both families, in the order in which they are to be written.
ghost use Rattle.std.specs.Prelude.{◌≡◌, [], ◌∷◌, true, false, IfOk};

use item_list::Items;
use session_commands::SessionCommand;
use std::alloc::{AllocError, Global};
use tab_restore_commands::TabsCommand;

/// The commands of a verb for each family, and whether it asks for a sync or for a compaction of both.
#[derive(Debug, Drop)]
pub struct Issued {
    pub session: Items<SessionCommand>,
    pub tabs: Items<TabsCommand>,
    pub sync: bool,
    pub compact: bool,
}

impl Issued {
    ghost use Rattle.browser_driver.specs.Issues.{asking, issued, of_session};

    /// No command.
    pub(crate) fn nothing(alloc: Global) -> Issued
        ensures { result ≡ of_session [] }
    {
        Issued::of_session(alloc, Vec::new(alloc))
    }

    /// The wish for a sync.
    pub(crate) fn sync(alloc: Global) -> Issued
        ensures { result ≡ asking true false }
    {
        Issued {
            session: Items::new(alloc),
            tabs: Items::new(alloc),
            sync: true,
            compact: false,
        }
    }

    /// The wish for a compaction.
    pub(crate) fn compact(alloc: Global) -> Issued
        ensures { result ≡ asking false true }
    {
        Issued {
            session: Items::new(alloc),
            tabs: Items::new(alloc),
            sync: false,
            compact: true,
        }
    }

    /// Commands of the session alone.
    pub(crate) fn of_session(alloc: Global, session: Vec<SessionCommand>) -> Issued
        ensures { result ≡ of_session session.items }
    {
        Issued::of_both(session, Vec::new(alloc))
    }

    /// Commands of both families.
    pub(crate) fn of_both(session: Vec<SessionCommand>, tabs: Vec<TabsCommand>) -> Issued
        ensures { result ≡ issued session.items tabs.items }
    {
        Issued {
            session: Items::from_vec(session),
            tabs: Items::from_vec(tabs),
            sync: false,
            compact: false,
        }
    }
}

/// One command.
pub(crate) fn one_command(
    alloc: Global,
    command: SessionCommand,
) -> Result<Vec<SessionCommand>, AllocError>
    ensures { IfOk result (λ v. v.items ≡ command ∷ []) }
{
    let mut commands = Vec::with_capacity(alloc, 1)?;
    commands.push(command)?;
    Ok(commands)
}
