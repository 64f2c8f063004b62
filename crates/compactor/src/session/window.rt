//! The commands that restate a window.
ghost use Rattle.std.specs.Prelude.{◌≡◌, ◌++◌, [], ◌∷◌, pos, true, OnOk};
ghost use Rattle.session_commands.specs.declared.command.SessionCommand.TheVariants.{AllWorkspaces, SelectTab, UserTitle, WindowApp, WindowBounds, WindowKind, Workspace};
ghost use Rattle.compaction_runs.specs.FieldCommands.{flagged, given, unusual};
ghost use Rattle.compactor.specs.session.Compaction.{window_commands};

use super::pairs;
use pickle_cells::Blob;
use session_commands::SessionCommand;
use std::alloc::{AllocError, Global};
use window_state::{Window, WindowInfo};

pub(crate) fn push(
    alloc: Global,
    window: &Window,
    out: &mut Vec<SessionCommand>,
) -> Result<(), AllocError>
    ensures { OnOk result (out.new.items ≡ out.old.items ++ window_commands window.now) }
{
    let info = &window.info;
    push_selected(window, out)?;
    push_kind(info, out)?;
    push_bounds(info, out)?;
    push_app(alloc, info, out)?;
    push_workspace(alloc, info, out)?;
    push_all_workspaces(info, out)?;
    push_title(alloc, info, out)?;
    pairs::push_of_window(alloc, info, out)?;
    Ok(())
}

fn push_selected(window: &Window, out: &mut Vec<SessionCommand>) -> Result<(), AllocError>
    ensures { OnOk result (out.new.items ≡ out.old.items ++ SelectTab window.now.info.id window.now.selected ∷ []) }
{
    out.push(SessionCommand::SelectTab {
        window: window.info.id,
        index: window.selected,
    })?;
    Ok(())
}

fn push_kind(info: &WindowInfo, out: &mut Vec<SessionCommand>) -> Result<(), AllocError>
    ensures { OnOk result
        (out.new.items ≡ out.old.items ++ unusual (pos 0) (λ kind. WindowKind info.now.id kind) info.now.kind) }
{
    if info.kind == 0 {
        return Ok(());
    }
    out.push(SessionCommand::WindowKind {
        window: info.id,
        kind: info.kind,
    })?;
    Ok(())
}

fn push_bounds(info: &WindowInfo, out: &mut Vec<SessionCommand>) -> Result<(), AllocError>
    ensures { OnOk result
        (out.new.items ≡ out.old.items ++ given (λ bounds. WindowBounds info.now.id bounds) info.now.bounds) }
{
    let Some(bounds) = info.bounds else {
        return Ok(());
    };
    out.push(SessionCommand::WindowBounds {
        window: info.id,
        bounds,
    })?;
    Ok(())
}

fn push_app(
    alloc: Global,
    info: &WindowInfo,
    out: &mut Vec<SessionCommand>,
) -> Result<(), AllocError>
    ensures { OnOk result
        (out.new.items ≡ out.old.items ++ given (λ text. WindowApp info.now.id text []) info.now.app) }
{
    let Some(app) = &info.app else {
        return Ok(());
    };
    let name = app.copy()?;
    let tail = Blob::from_slice(alloc, &[])?;
    out.push(SessionCommand::WindowApp {
        window: info.id,
        name,
        tail,
    })?;
    Ok(())
}

fn push_workspace(
    alloc: Global,
    info: &WindowInfo,
    out: &mut Vec<SessionCommand>,
) -> Result<(), AllocError>
    ensures { OnOk result
        (out.new.items ≡ out.old.items ++ given (λ text. Workspace info.now.id text []) info.now.workspace) }
{
    let Some(workspace) = &info.workspace else {
        return Ok(());
    };
    let workspace = workspace.copy()?;
    let tail = Blob::from_slice(alloc, &[])?;
    out.push(SessionCommand::Workspace {
        window: info.id,
        workspace,
        tail,
    })?;
    Ok(())
}

fn push_all_workspaces(info: &WindowInfo, out: &mut Vec<SessionCommand>) -> Result<(), AllocError>
    ensures { OnOk result
        (out.new.items ≡ out.old.items ++ flagged (AllWorkspaces info.now.id true) info.now.all_workspaces) }
{
    if !info.all_workspaces {
        return Ok(());
    }
    out.push(SessionCommand::AllWorkspaces {
        window: info.id,
        all: true,
    })?;
    Ok(())
}

fn push_title(
    alloc: Global,
    info: &WindowInfo,
    out: &mut Vec<SessionCommand>,
) -> Result<(), AllocError>
    ensures { OnOk result
        (out.new.items ≡ out.old.items ++ given (λ text. UserTitle info.now.id text []) info.now.title) }
{
    let Some(title) = &info.title else {
        return Ok(());
    };
    let title = title.copy()?;
    let tail = Blob::from_slice(alloc, &[])?;
    out.push(SessionCommand::UserTitle {
        window: info.id,
        title,
        tail,
    })?;
    Ok(())
}
