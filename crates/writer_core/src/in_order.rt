//! Commands of one family in order, each as an item over both journals. What any items in order make of both is said
//! by the same words, so commands of both families can follow each other.
ghost use Rattle.std.specs.Prelude.{◌≡◌, None, map};
ghost use Rattle.std.specs.List.{AllByRecursion};
ghost use Rattle.writer_core.specs.InOrder.{HandlesAll};

use crate::handling::{Stopped, Writers, handle};
use crate::item::Item;
use machine_law::Machine;
use session_disk::{Clock, SessionDisk};

/// Writes commands to the session's journal, up to the first that is refused; those behind it are dropped. It takes
/// what the writes take.
pub fn handle_session<S: Machine, T: Machine, D: SessionDisk, C: Clock>(
    writers: &mut Writers<S, T, D>,
    clock: &mut C,
    commands: Vec<S::Command>,
) -> Result<(), Stopped>
    requires session_works { writers.old.session.failed ≡ None }
    requires tabs_work { writers.old.tabs.failed ≡ None }
    requires commands { AllByRecursion S.is_command commands.items }
    ensures { HandlesAll (map Item.Session commands.items) writers.old writers.new result }
{
    for command in commands {
        handle(writers, clock, Item::Session(command))?;
    }
    Ok(())
}

/// Writes commands to the journal of the tabs, up to the first that is refused; those behind it are dropped. It takes
/// what the writes take.
pub fn handle_tabs<S: Machine, T: Machine, D: SessionDisk, C: Clock>(
    writers: &mut Writers<S, T, D>,
    clock: &mut C,
    commands: Vec<T::Command>,
) -> Result<(), Stopped>
    requires session_works { writers.old.session.failed ≡ None }
    requires tabs_work { writers.old.tabs.failed ≡ None }
    requires commands { AllByRecursion T.is_command commands.items }
    ensures { HandlesAll (map Item.Tabs commands.items) writers.old writers.new result }
{
    for command in commands {
        handle(writers, clock, Item::Tabs(command))?;
    }
    Ok(())
}
