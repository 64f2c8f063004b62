//! The commands that restate the further values of a window or a tab, one a pair.
ghost use Rattle.std.specs.Prelude.{◌≡◌, ◌++◌, [], map, OnOk};
ghost use Rattle.session_commands.specs.declared.command.SessionCommand.TheVariants.{TabExtra, WindowExtra};

use pickle_cells::Blob;
use session_commands::SessionCommand;
use std::alloc::{AllocError, Global};
use window_state::{TabInfo, WindowInfo};

pub(crate) fn push_of_window(
    alloc: Global,
    window: &WindowInfo,
    out: &mut Vec<SessionCommand>,
) -> Result<(), AllocError>
    ensures { OnOk result
        (out.new.items ≡ out.old.items ++ map (λ pair. WindowExtra window.now.id pair.0 pair.1 []) window.now.extra) }
{
    for (key, value) in window.extra.iter() {
        let key = key.copy()?;
        let value = value.copy()?;
        let tail = Blob::from_slice(alloc, &[])?;
        out.push(SessionCommand::WindowExtra {
            window: window.id,
            key,
            value,
            tail,
        })?;
    }
    Ok(())
}

pub(crate) fn push_of_tab(
    alloc: Global,
    tab: &TabInfo,
    out: &mut Vec<SessionCommand>,
) -> Result<(), AllocError>
    ensures { OnOk result
        (out.new.items ≡ out.old.items ++ map (λ pair. TabExtra tab.now.id pair.0 pair.1 []) tab.now.extra) }
{
    for (key, value) in tab.extra.iter() {
        let key = key.copy()?;
        let value = value.copy()?;
        let tail = Blob::from_slice(alloc, &[])?;
        out.push(SessionCommand::TabExtra {
            tab: tab.id,
            key,
            value,
            tail,
        })?;
    }
    Ok(())
}
