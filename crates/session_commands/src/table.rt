//! The table of commands: each with its id and the fields of its payload, each id with the shape of its payloads.
ghost use Rattle.std.specs.Prelude.{◌≡◌};

use crate::command::SessionCommand;
use payload_rows::{RowRef, Shape};

impl SessionCommand {
    ghost use Rattle.payload_rows.specs.Contents.{content};
    ghost use Rattle.session_commands.specs.Faults.{name_of};
    ghost use Rattle.payload_rows.specs.Rows.{told};
    ghost use Rattle.session_commands.specs.Table.{row};

    /// The id under which the command is written, and what its payload says. It takes no memory.
    pub fn row(&self) -> (u8, RowRef<'_>)
        ensures { (result.0, content result.1) ≡ told (row self.now) }
    {
        use SessionCommand::*;
        match self {
            TabWindow { window, tab } => (0, RowRef::TwoInts(*window, *tab)),
            TabIndex { tab, index } => (2, RowRef::TwoInts(*tab, *index)),
            PrunedBack { tab, index } => (5, RowRef::TwoInts(*tab, *index)),
            UpdateNavigation {
                tab,
                index,
                navigation,
            } => (6, RowRef::Navigation(*tab, *index, navigation)),
            SelectNavigation { tab, index } => (7, RowRef::TwoInts(*tab, *index)),
            SelectTab { window, index } => (8, RowRef::TwoInts(*window, *index)),
            WindowKind { window, kind } => (9, RowRef::TwoInts(*window, *kind)),
            PrunedFront { tab, count } => (11, RowRef::TwoInts(*tab, *count)),
            Pinned { tab, pinned } => (12, RowRef::IntFlag(*tab, *pinned)),
            Extension {
                tab,
                extension,
                tail,
            } => (13, RowRef::IntText(*tab, extension, tail)),
            WindowBounds { window, bounds } => (14, RowRef::WindowBounds(*window, *bounds)),
            WindowApp { window, name, tail } => (15, RowRef::IntText(*window, name, tail)),
            TabClosed { tab, time } => (16, RowRef::IntTime(*tab, *time)),
            WindowClosed { window, time } => (17, RowRef::IntTime(*window, *time)),
            SessionStorage { tab, storage, tail } => (19, RowRef::IntText(*tab, storage, tail)),
            ActiveWindow { window } => (20, RowRef::Int(*window)),
            LastActive { tab, time } => (21, RowRef::IntTime(*tab, *time)),
            Workspace {
                window,
                workspace,
                tail,
            } => (23, RowRef::IntText(*window, workspace, tail)),
            Pruned { tab, index, count } => (24, RowRef::ThreeInts(*tab, *index, *count)),
            TabGroup {
                tab,
                high,
                low,
                grouped,
            } => (25, RowRef::TabGroup(*tab, *high, *low, *grouped)),
            GroupData { group } => (27, RowRef::Group(group)),
            TabGuid { tab, guid, tail } => (28, RowRef::IntText(*tab, guid, tail)),
            UserAgent { tab, rest } => (29, RowRef::IntRest(*tab, rest)),
            UserTitle {
                window,
                title,
                tail,
            } => (31, RowRef::IntText(*window, title, tail)),
            AllWorkspaces { window, all } => (32, RowRef::IntFlag(*window, *all)),
            TabExtra {
                tab,
                key,
                value,
                tail,
            } => (33, RowRef::IntTwoTexts(*tab, key, value, tail)),
            WindowExtra {
                window,
                key,
                value,
                tail,
            } => (34, RowRef::IntTwoTexts(*window, key, value, tail)),
            Raw(raw) => (raw.id, RowRef::Raw(&raw.payload)),
        }
    }

    /// The shape of the payloads of an id, and `None` exactly where the id has no row. It takes no memory.
    pub fn shape(id: u8) -> Option<Shape>
        ensures { result ≡ name_of id }
    {
        match id {
            0 | 2 | 5 | 7 | 8 | 9 | 11 => Some(Shape::TwoInts),
            6 => Some(Shape::Navigation),
            12 | 32 => Some(Shape::IntFlag),
            13 | 15 | 19 | 23 | 28 | 31 => Some(Shape::IntText),
            14 => Some(Shape::WindowBounds),
            16 | 17 | 21 => Some(Shape::IntTime),
            20 => Some(Shape::Int),
            24 => Some(Shape::ThreeInts),
            25 => Some(Shape::TabGroup),
            27 => Some(Shape::Group),
            29 => Some(Shape::IntRest),
            33 | 34 => Some(Shape::IntTwoTexts),
            _ => None,
        }
    }
}
