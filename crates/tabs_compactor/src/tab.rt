//! The commands that restate a closed tab.
ghost use Rattle.std.specs.Prelude.{◌≡◌, ◌++◌, [], ◌∷◌, true, map, OnOk};
ghost use Rattle.tab_restore_commands.specs.declared.command.TabsCommand.TheVariants.{Extension, Group, Pinned, SelectedInTab, UpdateNavigation, UserAgent};
ghost use Rattle.compaction_runs.specs.FieldCommands.{flagged, given};
ghost use Rattle.tabs_compactor.specs.Compaction.{tab_commands};

use closed_entries::ClosedTab;
use pickle_cells::Blob;
use std::alloc::{AllocError, Global};
use tab_restore_commands::TabsCommand;

pub(crate) fn push(
    alloc: Global,
    tab: &ClosedTab,
    out: &mut Vec<TabsCommand>,
) -> Result<(), AllocError>
    ensures { OnOk result (out.new.items ≡ out.old.items ++ tab_commands tab.now) }
{
    push_selected(tab, out)?;
    push_pinned(tab, out)?;
    push_extension(alloc, tab, out)?;
    push_agent(tab, out)?;
    push_group(tab, out)?;
    push_pages(tab, out)?;
    Ok(())
}

fn push_selected(tab: &ClosedTab, out: &mut Vec<TabsCommand>) -> Result<(), AllocError>
    ensures { OnOk result
        (out.new.items ≡ out.old.items ++ SelectedInTab tab.now.id tab.now.selected tab.now.time ∷ []) }
{
    out.push(TabsCommand::SelectedInTab {
        tab: tab.id,
        index: tab.selected,
        time: tab.time,
    })?;
    Ok(())
}

fn push_pinned(tab: &ClosedTab, out: &mut Vec<TabsCommand>) -> Result<(), AllocError>
    ensures { OnOk result (out.new.items ≡ out.old.items ++ flagged (Pinned true) tab.now.pinned) }
{
    if !tab.pinned {
        return Ok(());
    }
    out.push(TabsCommand::Pinned { pinned: true })?;
    Ok(())
}

fn push_extension(
    alloc: Global,
    tab: &ClosedTab,
    out: &mut Vec<TabsCommand>,
) -> Result<(), AllocError>
    ensures { OnOk result
        (out.new.items ≡ out.old.items ++ given (λ text. Extension tab.now.id text []) tab.now.extension) }
{
    let Some(extension) = &tab.extension else {
        return Ok(());
    };
    let extension = extension.copy()?;
    let tail = Blob::from_slice(alloc, &[])?;
    out.push(TabsCommand::Extension {
        tab: tab.id,
        extension,
        tail,
    })?;
    Ok(())
}

fn push_agent(tab: &ClosedTab, out: &mut Vec<TabsCommand>) -> Result<(), AllocError>
    ensures { OnOk result (out.new.items ≡ out.old.items ++ given (λ rest. UserAgent tab.now.id rest) tab.now.agent) }
{
    let Some(agent) = &tab.agent else {
        return Ok(());
    };
    let rest = agent.copy()?;
    out.push(TabsCommand::UserAgent { tab: tab.id, rest })?;
    Ok(())
}

fn push_group(tab: &ClosedTab, out: &mut Vec<TabsCommand>) -> Result<(), AllocError>
    ensures { OnOk result (out.new.items ≡ out.old.items ++ given (λ group. Group group) tab.now.group) }
{
    let Some(group) = &tab.group else {
        return Ok(());
    };
    let group = group.copy()?;
    out.push(TabsCommand::Group { group })?;
    Ok(())
}

fn push_pages(tab: &ClosedTab, out: &mut Vec<TabsCommand>) -> Result<(), AllocError>
    ensures { OnOk result
        (out.new.items ≡ out.old.items ++ map (λ page. UpdateNavigation tab.now.id page.0 page.1) tab.now.pages) }
{
    for page in tab.pages.iter() {
        let navigation = page.1.copy()?;
        out.push(TabsCommand::UpdateNavigation {
            tab: tab.id,
            index: page.0,
            navigation,
        })?;
    }
    Ok(())
}
