//! The commands that restate a tab.
ghost use Rattle.std.specs.Prelude.{◌≡◌, ◌++◌, [], ◌∷◌, pos, negsuc, true, map, OnOk};
ghost use Rattle.session_commands.specs.declared.command.SessionCommand.TheVariants.{Extension, LastActive, Pinned, SelectNavigation, SessionStorage, TabGroup, TabGuid, TabIndex, TabWindow, UpdateNavigation, UserAgent};
ghost use Rattle.compaction_runs.specs.FieldCommands.{flagged, given, unusual};
ghost use Rattle.compactor.specs.session.Compaction.{tab_commands};

use super::pairs;
use pickle_cells::Blob;
use session_commands::SessionCommand;
use std::alloc::{AllocError, Global};
use window_state::{Tab, TabInfo};

pub(crate) fn push(
    alloc: Global,
    tab: &Tab,
    out: &mut Vec<SessionCommand>,
) -> Result<(), AllocError>
    ensures { OnOk result (out.new.items ≡ out.old.items ++ tab_commands tab.now) }
{
    let info = &tab.info;
    push_index(tab, out)?;
    push_window(tab, out)?;
    push_pages(tab, out)?;
    push_current(tab, out)?;
    push_pinned(info, out)?;
    push_extension(alloc, info, out)?;
    push_storage(alloc, info, out)?;
    push_guid(alloc, info, out)?;
    push_agent(info, out)?;
    push_last_active(info, out)?;
    push_group(info, out)?;
    pairs::push_of_tab(alloc, info, out)?;
    Ok(())
}

fn push_index(tab: &Tab, out: &mut Vec<SessionCommand>) -> Result<(), AllocError>
    ensures { OnOk result (out.new.items ≡ out.old.items ++ TabIndex tab.now.info.id tab.now.index ∷ []) }
{
    out.push(SessionCommand::TabIndex {
        tab: tab.info.id,
        index: tab.index,
    })?;
    Ok(())
}

fn push_window(tab: &Tab, out: &mut Vec<SessionCommand>) -> Result<(), AllocError>
    ensures { OnOk result
        (out.new.items ≡ out.old.items ++ given (λ window. TabWindow window tab.now.info.id) tab.now.window) }
{
    let Some(window) = tab.window else {
        return Ok(());
    };
    out.push(SessionCommand::TabWindow {
        window,
        tab: tab.info.id,
    })?;
    Ok(())
}

fn push_pages(tab: &Tab, out: &mut Vec<SessionCommand>) -> Result<(), AllocError>
    ensures { OnOk result
        (out.new.items ≡ out.old.items ++ map (λ page. UpdateNavigation tab.now.info.id page.0 page.1) tab.now.pages) }
{
    for page in tab.pages.iter() {
        let navigation = page.1.copy()?;
        out.push(SessionCommand::UpdateNavigation {
            tab: tab.info.id,
            index: page.0,
            navigation,
        })?;
    }
    Ok(())
}

fn push_current(tab: &Tab, out: &mut Vec<SessionCommand>) -> Result<(), AllocError>
    ensures { OnOk result
        (out.new.items ≡ out.old.items ++ unusual (negsuc 0)
        (λ index. SelectNavigation tab.now.info.id index) tab.now.current) }
{
    if tab.current == -1 {
        return Ok(());
    }
    out.push(SessionCommand::SelectNavigation {
        tab: tab.info.id,
        index: tab.current,
    })?;
    Ok(())
}

fn push_pinned(info: &TabInfo, out: &mut Vec<SessionCommand>) -> Result<(), AllocError>
    ensures { OnOk result (out.new.items ≡ out.old.items ++ flagged (Pinned info.now.id true) info.now.pinned) }
{
    if !info.pinned {
        return Ok(());
    }
    out.push(SessionCommand::Pinned {
        tab: info.id,
        pinned: true,
    })?;
    Ok(())
}

fn push_extension(
    alloc: Global,
    info: &TabInfo,
    out: &mut Vec<SessionCommand>,
) -> Result<(), AllocError>
    ensures { OnOk result
        (out.new.items ≡ out.old.items ++ given (λ text. Extension info.now.id text []) info.now.extension) }
{
    let Some(extension) = &info.extension else {
        return Ok(());
    };
    let extension = extension.copy()?;
    let tail = Blob::from_slice(alloc, &[])?;
    out.push(SessionCommand::Extension {
        tab: info.id,
        extension,
        tail,
    })?;
    Ok(())
}

fn push_storage(
    alloc: Global,
    info: &TabInfo,
    out: &mut Vec<SessionCommand>,
) -> Result<(), AllocError>
    ensures { OnOk result
        (out.new.items ≡ out.old.items ++ given (λ text. SessionStorage info.now.id text []) info.now.storage) }
{
    let Some(storage) = &info.storage else {
        return Ok(());
    };
    let storage = storage.copy()?;
    let tail = Blob::from_slice(alloc, &[])?;
    out.push(SessionCommand::SessionStorage {
        tab: info.id,
        storage,
        tail,
    })?;
    Ok(())
}

fn push_guid(alloc: Global, info: &TabInfo, out: &mut Vec<SessionCommand>) -> Result<(), AllocError>
    ensures { OnOk result (out.new.items ≡ out.old.items ++ given (λ text. TabGuid info.now.id text []) info.now.guid) }
{
    let Some(guid) = &info.guid else {
        return Ok(());
    };
    let guid = guid.copy()?;
    let tail = Blob::from_slice(alloc, &[])?;
    out.push(SessionCommand::TabGuid {
        tab: info.id,
        guid,
        tail,
    })?;
    Ok(())
}

fn push_agent(info: &TabInfo, out: &mut Vec<SessionCommand>) -> Result<(), AllocError>
    ensures { OnOk result (out.new.items ≡ out.old.items ++ given (λ rest. UserAgent info.now.id rest) info.now.agent) }
{
    let Some(agent) = &info.agent else {
        return Ok(());
    };
    let rest = agent.copy()?;
    out.push(SessionCommand::UserAgent { tab: info.id, rest })?;
    Ok(())
}

fn push_last_active(info: &TabInfo, out: &mut Vec<SessionCommand>) -> Result<(), AllocError>
    ensures { OnOk result
        (out.new.items ≡ out.old.items ++ unusual (pos 0) (λ time. LastActive info.now.id time) info.now.last_active) }
{
    if info.last_active == 0 {
        return Ok(());
    }
    out.push(SessionCommand::LastActive {
        tab: info.id,
        time: info.last_active,
    })?;
    Ok(())
}

fn push_group(info: &TabInfo, out: &mut Vec<SessionCommand>) -> Result<(), AllocError>
    ensures { OnOk result
        (out.new.items ≡ out.old.items ++ given
        (λ group. TabGroup info.now.id group.high group.low true) info.now.group) }
{
    let Some(group) = info.group else {
        return Ok(());
    };
    out.push(SessionCommand::TabGroup {
        tab: info.id,
        high: group.high,
        low: group.low,
        grouped: true,
    })?;
    Ok(())
}
