//! A window.
ghost use Rattle.std.specs.Prelude.{◌≡◌, IfOk};

use crate::extra::Extra;
use navigation_entry::Bounds;
use pickle_cells::Blob;
use std::alloc::AllocError;
use tab_pages::text;

/// What is known of a window beside its selected tab. It owns its texts.
#[derive(Drop)]
pub struct WindowInfo {
    pub id: i32,
    pub kind: i32,
    pub bounds: Option<Bounds>,
    pub app: Option<Blob>,
    pub workspace: Option<Blob>,
    pub all_workspaces: bool,
    pub title: Option<Blob>,
    pub extra: Extra,
}

impl WindowInfo {
    /// The same, in memory of its own.
    pub fn copy(&self) -> Result<WindowInfo, AllocError>
        ensures { IfOk result (λ info. info ≡ self.now) }
    {
        let app = text::copy(&self.app)?;
        let workspace = text::copy(&self.workspace)?;
        let title = text::copy(&self.title)?;
        let extra = self.extra.copy()?;
        Ok(WindowInfo {
            id: self.id,
            kind: self.kind,
            bounds: self.bounds,
            app,
            workspace,
            all_workspaces: self.all_workspaces,
            title,
            extra,
        })
    }
}

/// A window with the index of its selected tab.
#[derive(Drop)]
pub struct Window {
    pub info: WindowInfo,
    pub selected: i32,
}
