//! An empty call by which the code around learns that numbers are in the ranges of their types.
ghost use Rattle.closed_entries.specs.Parts.{IsChangeInRange};

use tab_pages::ranges;
use tab_restore_commands::TabsCommand;

pub(crate) fn of_change(command: &TabsCommand)
    ensures { IsChangeInRange command.now }
{
    match command {
        TabsCommand::UpdateNavigation {
            index,
            navigation,
            ..
        } => {
            let _index = *index;
            ranges::of_navigation(navigation);
        }
        TabsCommand::Group { group } => ranges::of_group(group),
        _ => {}
    }
}
