//! One command's step.
ghost use Rattle.std.specs.Prelude.{◌≡◌, OnOk, OnErr};
ghost use Rattle.tab_restore_commands.specs.Table.{IsSound};
ghost use Rattle.closed_entries.specs.Step.{natural, step};

use crate::closed_tab::ClosedTab;
use crate::closed_window::ClosedWindow;
use crate::entry::Entry;
use crate::state::ClosedState;
use std::alloc::AllocError;
use tab_pages::ranges;
use tab_restore_commands::TabsCommand;

/// The state after a command, by the table in docs/STATE.md. After want of memory the state is as it was. It copies
/// what the command brings and nothing that the state holds, and allocates nothing by the count that a window's command
/// says: a step takes constant time, beside what `Pages` says of a page that is put in and the growth of a window's
/// list.
pub fn apply(state: &mut ClosedState, command: &TabsCommand) -> Result<(), AllocError>
    requires { IsSound command.now }
    ensures ok { OnOk result (state.new ≡ step state.old command.now) }
    ensures err { OnErr result (state.new ≡ state.old) }
{
    let alloc = state.allocator();
    match command {
        TabsCommand::SelectedInTab { tab, index, time } => {
            state.select(ClosedTab::new(alloc, *tab, *index, *time))
        }
        TabsCommand::WindowEntry {
            window,
            selected,
            count,
            time,
            bounds,
            ..
        } => {
            ranges::of_bounds(bounds);
            let window = ClosedWindow::new(alloc, *window, *selected, *time, *bounds);
            state.open(Entry::Window(window), natural(*count))
        }
        TabsCommand::RestoredEntry { id } => {
            state.restore(*id);
            Ok(())
        }
        TabsCommand::Raw(_) => Ok(()),
        _ => state.change(command),
    }
}

// A count that isn't negative, else 0.
fn natural(count: i32) -> u32
    ensures { result ≡ natural count }
{
    if count < 0 {
        return 0;
    }
    count as u32
}
