//! A case as it stands in its file. An empty line stands between two cases, and a block whose first line begins with
//! `//` is a remark.
//!
//!     # a_sentence_that_says_what_is_shown
//!     steps, a line each
//!     ----
//!     the lines that are expected

use crate::fault::CaseFault;

#[derive(Clone, Copy)]
pub(crate) struct Case<'a> {
    pub(crate) name: &'a str,
    pub(crate) steps: &'a str,
    pub(crate) expected: &'a str,
}

/// The case that a block of lines is.
pub(crate) fn read_case(block: &str) -> Result<Case<'_>, CaseFault> {
    let Some(body) = block.strip_prefix("# ") else {
        return Err(CaseFault::Malformed("a case begins with # and its name"));
    };
    let Some((name, lines)) = body.split_once('\n') else {
        return Err(CaseFault::Malformed("no steps follow"));
    };
    let Some((steps, expected)) = parted(lines) else {
        return Err(CaseFault::Malformed("no line ---- follows"));
    };
    if !name.bytes().all(is_name_byte) {
        return Err(CaseFault::Malformed("a name has lowercase letters, digits and _"));
    }
    Ok(Case {
        name,
        steps,
        expected,
    })
}

// What stands before the line `----`, and what behind it.
fn parted(lines: &str) -> Option<(&str, &str)> {
    match lines.strip_suffix("\n----") {
        Some(steps) => Some((steps, "")),
        None => lines.split_once("\n----\n"),
    }
}

fn is_name_byte(byte: u8) -> bool {
    byte.is_ascii_lowercase() || byte.is_ascii_digit() || byte == b'_'
}

/// A line's first word, and what follows it behind one space.
pub fn first_word(line: &str) -> (&str, &str) {
    line.split_once(' ').unwrap_or((line, ""))
}

/// How many lines a text has, where each but the last ends with a line feed.
pub(crate) fn line_count(text: &str) -> u64 {
    text.split('\n').count() as u64
}
