//! The command of an id and the fields of its payload.
ghost use Rattle.std.specs.Prelude.{◌≡◌, [], ◌∷◌, Some};
ghost use Rattle.pickle_cells.specs.PickleLayout.{Int as IntItem, Text as TextItem};
ghost use Rattle.payload_rows.specs.PayloadLayout.{Pickled, shape};
ghost use Rattle.payload_rows.specs.Shapes.{IsOneOf};
ghost use Rattle.payload_rows.specs.Contents.{layout_of};

use crate::command::TabsCommand;
use payload_rows::Fields;
use pickle_cells::Blob;

impl TabsCommand {
    ghost use Rattle.payload_rows.specs.Rows.{Known};
    ghost use Rattle.tab_restore_commands.specs.Faults.{shape_of};
    ghost use Rattle.tab_restore_commands.specs.Table.{row};

    pub(crate) fn from_fields(id: u8, fields: Fields) -> TabsCommand
        requires { shape_of id ≡ Some (shape (layout_of fields)) }
        ensures { row result ≡ Known id (layout_of fields) }
    {
        match fields {
            Fields::Flag(pinned) => TabsCommand::Pinned { pinned },
            Fields::Int(id) => TabsCommand::RestoredEntry { id },
            Fields::TwoIntsTime(tab, index, time) => TabsCommand::SelectedInTab {
                tab,
                index,
                time,
            },
            Fields::IntRest(tab, rest) => TabsCommand::UserAgent { tab, rest },
            Fields::IntText(number, text, tail) => TabsCommand::from_int_text(
                id, number, text, tail,
            ),
            Fields::WindowEntry(entry, tail) => TabsCommand::WindowEntry {
                window: entry.window,
                selected: entry.selected,
                count: entry.count,
                time: entry.time,
                bounds: entry.bounds,
                tail,
            },
            Fields::Navigation(tab, index, navigation) => TabsCommand::UpdateNavigation {
                tab,
                index,
                navigation,
            },
            Fields::Group(group) => TabsCommand::Group { group },
            _ => unreachable!(),
        }
    }

    fn from_int_text(id: u8, number: i32, text: Blob, tail: Blob) -> TabsCommand
        requires { IsOneOf (6 ∷ 7 ∷ 12 ∷ []) id }
        ensures { row result ≡ Known id (Pickled (IntItem number ∷ TextItem text ∷ []) tail) }
    {
        match id {
            6 => TabsCommand::Extension {
                tab: number,
                extension: text,
                tail,
            },
            7 => TabsCommand::WindowApp {
                window: number,
                name: text,
                tail,
            },
            12 => TabsCommand::UserTitle {
                window: number,
                title: text,
                tail,
            },
            _ => unreachable!(),
        }
    }
}
