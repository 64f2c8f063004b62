//! The frames of a session file, as they stand behind one another.

use std::alloc::{AllocError, Global};

/// A frame: the id of its command, its payload, and how many bytes the file has up to its end.
#[derive(Clone, Copy)]
pub(crate) struct Frame<'a> {
    pub(crate) id: u8,
    pub(crate) payload: &'a [u8],
    pub(crate) end: usize,
}

impl Frame<'_> {
    pub(crate) fn is_marker(&self) -> bool {
        self.id == 255 && self.payload.is_empty()
    }
}

/// The whole frames behind a file's header.
pub(crate) fn frames(alloc: Global, file: &[u8]) -> Result<Vec<Frame<'_>>, AllocError> {
    let mut frames = Vec::new(alloc);
    let mut rest = file.get(8..).unwrap_or(&[]);
    for _ in 0..file.len() {
        let Some((body, others)) = first_body(rest) else {
            break;
        };
        rest = others;
        if let [id, payload @ ..] = body {
            frames.push(Frame {
                id: *id,
                payload,
                end: file.len().saturating_sub(rest.len()),
            })?;
        }
    }
    Ok(frames)
}

/// The frames before the marker, and those behind it.
pub(crate) fn parted<'a>(frames: &'a [Frame<'a>]) -> (&'a [Frame<'a>], &'a [Frame<'a>]) {
    let mut parts = frames.split(|frame| frame.is_marker());
    let restated = parts.next().unwrap_or(&[]);
    (restated, parts.next().unwrap_or(&[]))
}

// The bytes that a size in two bytes counts, and those behind them.
fn first_body(bytes: &[u8]) -> Option<(&[u8], &[u8])> {
    let [low, high, rest @ ..] = bytes else {
        return None;
    };
    rest.split_at_checked(usize::from(u16::from_le_bytes([*low, *high])))
}
