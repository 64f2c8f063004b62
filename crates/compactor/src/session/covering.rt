//! Which commands leave nothing of an earlier one, so that a journal that still holds the earlier one can write the
//! later one in its place.
ghost use Rattle.std.specs.Prelude.{◌≡◌};
ghost use Rattle.compactor.specs.session.Covering.{updates, same_place};

use session_commands::SessionCommand;

/// Whether both commands update the page at one index of one tab.
pub(crate) fn same_place(first: &SessionCommand, second: &SessionCommand) -> bool
    ensures { result ≡ same_place first.now second.now }
{
    match first {
        SessionCommand::UpdateNavigation { tab, index, .. } => updates(*tab, *index, second),
        _ => false,
    }
}

fn updates(tab: i32, index: i32, command: &SessionCommand) -> bool
    ensures { result ≡ updates tab index command.now }
{
    match command {
        SessionCommand::UpdateNavigation {
            tab: other,
            index: place,
            ..
        } => *other == tab && *place == index,
        _ => false,
    }
}
