//! The command of an id and the fields of its payload.
ghost use Rattle.std.specs.Prelude.{◌≡◌, [], ◌∷◌, Some};
ghost use Rattle.pickle_cells.specs.Layout.{Int, Int64, Flag, Free};
ghost use Rattle.pickle_cells.specs.PickleLayout.{Int as IntItem, Text as TextItem};
ghost use Rattle.payload_rows.specs.PayloadLayout.{Fixed, Pickled, shape};
ghost use Rattle.payload_rows.specs.Shapes.{IsOneOf};
ghost use Rattle.payload_rows.specs.Contents.{layout_of};

use crate::command::SessionCommand;
use payload_rows::Fields;
use pickle_cells::Blob;

impl SessionCommand {
    ghost use Rattle.session_commands.specs.Faults.{shape_of};
    ghost use Rattle.payload_rows.specs.Rows.{Known};
    ghost use Rattle.session_commands.specs.Table.{row};

    pub(crate) fn from_fields(id: u8, fields: Fields) -> SessionCommand
        requires { shape_of id ≡ Some (shape (layout_of fields)) }
        ensures { row result ≡ Known id (layout_of fields) }
    {
        match fields {
            Fields::Int(window) => SessionCommand::ActiveWindow { window },
            Fields::TwoInts(first, second) => SessionCommand::from_two_ints(id, first, second),
            Fields::ThreeInts(tab, index, count) => SessionCommand::Pruned { tab, index, count },
            Fields::IntFlag(number, flag) => SessionCommand::from_int_flag(id, number, flag),
            Fields::IntTime(number, time) => SessionCommand::from_int_time(id, number, time),
            Fields::WindowBounds(window, bounds) => SessionCommand::WindowBounds { window, bounds },
            Fields::TabGroup(tab, high, low, grouped) => SessionCommand::TabGroup {
                tab,
                high,
                low,
                grouped,
            },
            Fields::IntRest(tab, rest) => SessionCommand::UserAgent { tab, rest },
            Fields::IntText(number, text, tail) => SessionCommand::from_int_text(
                id, number, text, tail,
            ),
            Fields::IntTwoTexts(number, key, value, tail) => {
                SessionCommand::from_int_two_texts(id, number, key, value, tail)
            }
            Fields::Navigation(tab, index, navigation) => SessionCommand::UpdateNavigation {
                tab,
                index,
                navigation,
            },
            Fields::Group(group) => SessionCommand::GroupData { group },
            Fields::Flag(_) | Fields::TwoIntsTime(..) | Fields::WindowEntry(..) => unreachable!(),
        }
    }

    fn from_two_ints(id: u8, first: i32, second: i32) -> SessionCommand
        requires { IsOneOf (0 ∷ 2 ∷ 5 ∷ 7 ∷ 8 ∷ 9 ∷ 11 ∷ []) id }
        ensures { row result ≡ Known id (Fixed (Int first ∷ Int second ∷ [])) }
    {
        match id {
            0 => SessionCommand::TabWindow {
                window: first,
                tab: second,
            },
            2 => SessionCommand::TabIndex {
                tab: first,
                index: second,
            },
            5 => SessionCommand::PrunedBack {
                tab: first,
                index: second,
            },
            7 => SessionCommand::SelectNavigation {
                tab: first,
                index: second,
            },
            8 => SessionCommand::SelectTab {
                window: first,
                index: second,
            },
            9 => SessionCommand::WindowKind {
                window: first,
                kind: second,
            },
            11 => SessionCommand::PrunedFront {
                tab: first,
                count: second,
            },
            _ => unreachable!(),
        }
    }

    fn from_int_flag(id: u8, number: i32, flag: bool) -> SessionCommand
        requires { IsOneOf (12 ∷ 32 ∷ []) id }
        ensures { row result ≡ Known id (Fixed (Int number ∷ Flag flag ∷ Free 3 ∷ [])) }
    {
        match id {
            12 => SessionCommand::Pinned {
                tab: number,
                pinned: flag,
            },
            32 => SessionCommand::AllWorkspaces {
                window: number,
                all: flag,
            },
            _ => unreachable!(),
        }
    }

    fn from_int_time(id: u8, number: i32, time: i64) -> SessionCommand
        requires { IsOneOf (16 ∷ 17 ∷ 21 ∷ []) id }
        ensures { row result ≡ Known id (Fixed (Int number ∷ Free 4 ∷ Int64 time ∷ [])) }
    {
        match id {
            16 => SessionCommand::TabClosed { tab: number, time },
            17 => SessionCommand::WindowClosed {
                window: number,
                time,
            },
            21 => SessionCommand::LastActive { tab: number, time },
            _ => unreachable!(),
        }
    }

    fn from_int_text(id: u8, number: i32, text: Blob, tail: Blob) -> SessionCommand
        requires { IsOneOf (13 ∷ 15 ∷ 19 ∷ 23 ∷ 28 ∷ 31 ∷ []) id }
        ensures { row result ≡ Known id (Pickled (IntItem number ∷ TextItem text ∷ []) tail) }
    {
        match id {
            13 => SessionCommand::Extension {
                tab: number,
                extension: text,
                tail,
            },
            15 => SessionCommand::WindowApp {
                window: number,
                name: text,
                tail,
            },
            19 => SessionCommand::SessionStorage {
                tab: number,
                storage: text,
                tail,
            },
            23 => SessionCommand::Workspace {
                window: number,
                workspace: text,
                tail,
            },
            28 => SessionCommand::TabGuid {
                tab: number,
                guid: text,
                tail,
            },
            31 => SessionCommand::UserTitle {
                window: number,
                title: text,
                tail,
            },
            _ => unreachable!(),
        }
    }

    fn from_int_two_texts(id: u8, number: i32, key: Blob, value: Blob, tail: Blob) -> SessionCommand
        requires { IsOneOf (33 ∷ 34 ∷ []) id }
        ensures { row result ≡ Known id (Pickled (IntItem number ∷ TextItem key ∷ TextItem value ∷ []) tail) }
    {
        match id {
            33 => SessionCommand::TabExtra {
                tab: number,
                key,
                value,
                tail,
            },
            34 => SessionCommand::WindowExtra {
                window: number,
                key,
                value,
                tail,
            },
            _ => unreachable!(),
        }
    }
}
