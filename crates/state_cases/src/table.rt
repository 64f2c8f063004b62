//! Tables of commands: a line for each, with its id, its name, `fixed` or `pickle`, and the kinds of its fields. A
//! payload of fixed length ends with its fields, a pickle may have a tail.
//!
//! The kinds are `int`, `int64`, `uint32`, `uint64`; `flag`, a truth value and 3 free bytes; `byte`, a truth value
//! alone; `free`, 4 free bytes; `text`; `units`.

/// The commands of a session's files.
pub(crate) const SESSION: &str = "\
0 TabWindow fixed int int
2 TabIndex fixed int int
5 PrunedBack fixed int int
6 UpdateNavigation pickle int int text units text int
7 SelectNavigation fixed int int
8 SelectTab fixed int int
9 WindowKind fixed int int
11 PrunedFront fixed int int
12 Pinned fixed int flag
13 Extension pickle int text
14 WindowBounds fixed int int int int int int
15 WindowApp pickle int text
16 TabClosed fixed int free int64
17 WindowClosed fixed int free int64
19 SessionStorage pickle int text
20 ActiveWindow fixed int
21 LastActive fixed int free int64
23 Workspace pickle int text
24 Pruned fixed int int int
25 TabGroup fixed int free uint64 uint64 flag free
27 GroupData pickle uint64 uint64 units uint32
28 TabGuid pickle int text
29 UserAgent pickle int
31 UserTitle pickle int text
32 AllWorkspaces fixed int flag
33 TabExtra pickle int text text
34 WindowExtra pickle int text text";

/// The commands of the files of closed entries.
pub(crate) const TABS: &str = "\
1 UpdateNavigation pickle int int text units text int
2 RestoredEntry fixed int
4 SelectedInTab fixed int int int64
5 Pinned fixed byte
6 Extension pickle int text
7 WindowApp pickle int text
9 WindowEntry pickle int int int int64 int int int int int
10 Group pickle uint64 uint64 units uint32
11 UserAgent pickle int
12 UserTitle pickle int text";

/// What a command's payload holds. A pickled one has a size before its fields.
#[derive(Clone, Copy)]
pub(crate) struct CommandRow {
    pub(crate) id: u8,
    pub(crate) name: &'static str,
    pub(crate) is_pickled: bool,
    /// The kinds of the fields, with one space between two of them.
    pub(crate) fields: &'static str,
}

pub(crate) fn row_named(table: &'static str, name: &str) -> Option<CommandRow> {
    table
        .lines()
        .filter_map(read_row)
        .find(|row| row.name == name)
}

pub(crate) fn row_of(table: &'static str, id: u8) -> Option<CommandRow> {
    table.lines().filter_map(read_row).find(|row| row.id == id)
}

fn read_row(line: &'static str) -> Option<CommandRow> {
    let (id, rest) = line.split_once(' ')?;
    let (name, rest) = rest.split_once(' ')?;
    let (form, fields) = rest.split_once(' ')?;
    Some(CommandRow {
        id: id.parse::<u8>().ok()?,
        name,
        is_pickled: form == "pickle",
        fields,
    })
}
