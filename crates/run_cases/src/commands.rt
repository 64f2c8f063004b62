//! Commands of session files as text: each by its name and its fields, numbers in decimal, texts in double quotes, and of
//! what isn't text its length in brackets.
ghost use Rattle.std.specs.Prelude.{◌<◌};

use crate::frames::Frame;
use case_files::{CaseFault, first_word};
use disk_cases::number;
use session_disk::Family;
use std::alloc::{AllocError, Global};
use std::fmt::Write;

// A line for each command: its id, its name, and the kinds of its fields. `skip` is 4 bytes that aren't told, the size
// of a pickle among them; `state` and `rest` are bytes of which the length is told.
const SESSION: &str = "\
0 TabWindow int int
2 TabIndex int int
5 PrunedBack int int
6 UpdateNavigation skip int int text units state int rest
7 SelectNavigation int int
8 SelectTab int int
9 WindowKind int int
11 PrunedFront int int
12 Pinned int flag
13 Extension skip int text rest
14 WindowBounds int int int int int int
15 WindowApp skip int text rest
16 TabClosed int skip long
17 WindowClosed int skip long
19 SessionStorage skip int text rest
20 ActiveWindow int
21 LastActive int skip long
23 Workspace skip int text rest
24 Pruned int int int
25 TabGroup int skip token token flag skip
27 GroupData skip token token units colour rest
28 TabGuid skip int text rest
29 UserAgent skip int rest
31 UserTitle skip int text rest
32 AllWorkspaces int flag
33 TabExtra skip int text text rest
34 WindowExtra skip int text text rest";

const TABS: &str = "\
1 UpdateNavigation skip int int text units state int rest
2 RestoredEntry int
4 SelectedInTab int int long
5 Pinned byte
6 Extension skip int text rest
7 WindowApp skip int text rest
9 WindowEntry skip int int int long int int int int int rest
10 Group skip token token units colour rest
11 UserAgent skip int rest
12 UserTitle skip int text rest";

/// The commands of these frames, each behind a line feed and two spaces.
pub(crate) fn commands_text(
    alloc: Global,
    family: Family,
    frames: &[Frame<'_>],
) -> Result<String, CaseFault> {
    let table = match family {
        Family::Session => SESSION,
        Family::Tabs => TABS,
    };
    let mut text = String::new(alloc);
    for frame in frames {
        text.push_str("\n  ")?;
        put_command(&mut text, table, frame)?;
    }
    if text.is_empty() {
        text.push_str("none")?;
    }
    Ok(text)
}

fn put_command(text: &mut String, table: &str, frame: &Frame<'_>) -> Result<(), CaseFault> {
    for row in table.lines() {
        let (id, fields) = first_word(row);
        if number(id)? == u64::from(frame.id) {
            return put_fields(text, fields, frame.payload);
        }
    }
    Ok(write!(text, "another command {}", frame.id)?)
}

fn put_fields(text: &mut String, fields: &str, payload: &[u8]) -> Result<(), CaseFault> {
    let (name, kinds) = first_word(fields);
    text.push_str(name)?;
    let mut rest = payload;
    for kind in kinds.split(' ') {
        rest = put_field(text, kind, rest)?;
    }
    Ok(())
}

// Puts the field of a kind that stands first, and gives what stands behind it.
fn put_field<'a>(text: &mut String, kind: &str, bytes: &'a [u8]) -> Result<&'a [u8], CaseFault> {
    match kind {
        "skip" => {
            let (_, rest) = chunk::<4>(bytes)?;
            Ok(rest)
        }
        "int" => {
            let (int, rest) = chunk::<4>(bytes)?;
            write!(text, " {}", i32::from_le_bytes(int))?;
            Ok(rest)
        }
        "colour" => {
            let (colour, rest) = chunk::<4>(bytes)?;
            write!(text, " {}", u32::from_le_bytes(colour))?;
            Ok(rest)
        }
        "long" => {
            let (long, rest) = chunk::<8>(bytes)?;
            write!(text, " {}", i64::from_le_bytes(long))?;
            Ok(rest)
        }
        "token" => {
            let (token, rest) = chunk::<8>(bytes)?;
            write!(text, " {}", u64::from_le_bytes(token))?;
            Ok(rest)
        }
        "flag" => {
            let (flag, rest) = chunk::<4>(bytes)?;
            write!(text, " {}", flag != [0; 4])?;
            Ok(rest)
        }
        "byte" => {
            let (byte, rest) = chunk::<1>(bytes)?;
            write!(text, " {}", byte != [0])?;
            Ok(rest)
        }
        "rest" => {
            write!(text, " [{}]", bytes.len())?;
            Ok(&[])
        }
        _ => put_counted(text, kind, bytes),
    }
}

// The first bytes, and those behind them.
fn chunk<const N: usize>(bytes: &[u8]) -> Result<([u8; N], &[u8]), CaseFault> {
    match bytes.split_first_chunk::<N>() {
        Some((first, rest)) => Ok((*first, rest)),
        None => Err(CaseFault::Malformed("a command of the file is cut")),
    }
}

// A string of a pickle: how many characters it has, the characters, and zeros up to a multiple of 4 bytes.
fn put_counted<'a>(text: &mut String, kind: &str, bytes: &'a [u8]) -> Result<&'a [u8], CaseFault> {
    let (count, rest) = chunk::<4>(bytes)?;
    let width = 1 + usize::from(kind == "units");
    let size = (u32::from_le_bytes(count) as usize).saturating_mul(width);
    let (string, rest) = rest.split_at(size.min(rest.len()));
    match kind {
        "state" => write!(text, " [{size}]")?,
        _ => put_quoted(text, string, width)?,
    }
    Ok(rest.get((4 - size % 4) % 4..).unwrap_or(&[]))
}

// Characters of one or two bytes each, of which those that are letters, digits or signs stand for themselves.
fn put_quoted(text: &mut String, string: &[u8], width: usize) -> Result<(), AllocError>
    requires { 0 < width }
{
    text.push_str(" \"")?;
    for character in string.chunks(width) {
        match character {
            [byte] | [byte, 0] if (b' '..=b'~').contains(byte) && !b"\"\\".contains(byte) => {
                text.push(char::from(*byte))?;
            }
            [byte] => write!(text, "\\x{byte:02x}")?,
            [low, high, ..] => write!(text, "\\u{high:02x}{low:02x}")?,
            [] => {}
        }
    }
    text.push_str("\"")
}
