//! The table of commands: each with its id and the fields of its payload, each id with the shape of its payloads.
ghost use Rattle.std.specs.Prelude.{◌≡◌};

use crate::command::TabsCommand;
use payload_rows::{RowRef, Shape, WindowEntry};

impl TabsCommand {
    ghost use Rattle.payload_rows.specs.Contents.{content};
    ghost use Rattle.payload_rows.specs.Rows.{told};
    ghost use Rattle.tab_restore_commands.specs.Faults.{name_of};
    ghost use Rattle.tab_restore_commands.specs.Table.{row};

    /// The id under which the command is written, and what its payload says. It takes no memory.
    pub fn row(&self) -> (u8, RowRef<'_>)
        ensures { (result.0, content result.1) ≡ told (row self.now) }
    {
        match self {
            TabsCommand::UpdateNavigation {
                tab,
                index,
                navigation,
            } => (1, RowRef::Navigation(*tab, *index, navigation)),
            TabsCommand::RestoredEntry { id } => (2, RowRef::Int(*id)),
            TabsCommand::SelectedInTab { tab, index, time } => {
                (4, RowRef::TwoIntsTime(*tab, *index, *time))
            },
            TabsCommand::Pinned { pinned } => (5, RowRef::Flag(*pinned)),
            TabsCommand::Extension {
                tab,
                extension,
                tail,
            } => (6, RowRef::IntText(*tab, extension, tail)),
            TabsCommand::WindowApp { window, name, tail } => {
                (7, RowRef::IntText(*window, name, tail))
            },
            TabsCommand::WindowEntry {
                window,
                selected,
                count,
                time,
                bounds,
                tail,
            } => {
                let entry = WindowEntry {
                    window: *window,
                    selected: *selected,
                    count: *count,
                    time: *time,
                    bounds: *bounds,
                };
                (9, RowRef::WindowEntry(entry, tail))
            }
            TabsCommand::Group { group } => (10, RowRef::Group(group)),
            TabsCommand::UserAgent { tab, rest } => (11, RowRef::IntRest(*tab, rest)),
            TabsCommand::UserTitle {
                window,
                title,
                tail,
            } => (12, RowRef::IntText(*window, title, tail)),
            TabsCommand::Raw(raw) => (raw.id, RowRef::Raw(&raw.payload)),
        }
    }

    /// The shape of the payloads of an id, and `None` exactly where the id has no row. It takes no memory.
    pub fn shape(id: u8) -> Option<Shape>
        ensures { result ≡ name_of id }
    {
        match id {
            1 => Some(Shape::Navigation),
            2 => Some(Shape::Int),
            4 => Some(Shape::TwoIntsTime),
            5 => Some(Shape::Flag),
            6 | 7 | 12 => Some(Shape::IntText),
            9 => Some(Shape::WindowEntry),
            10 => Some(Shape::Group),
            11 => Some(Shape::IntRest),
            _ => None,
        }
    }
}
