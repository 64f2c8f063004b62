//! Session files in a step: `session V: PART, PART, ..`, for a header of version V and then
//!
//! - `tab W T`: the frame that puts tab T into window W
//! - `index T I`, `current T I`: the frames of a tab's index and of its current page
//! - `selected W I`, `active W`: the frames of a window's selected tab and of the active window
//! - `page T I`: the frame that puts a page with the address `a` into tab T at index I; `page T I N`, one with N zeros
//!   behind what is read of it; `pages T N`, the frames of N such pages from index 0 on
//! - `shown W T`: the six frames of a tab that is shown, first in the active window W and selected, with one page
//! - `closed T`: the frame that says that tab T was closed, for a file of closed entries; `restored I`, that the entry
//!   I was restored
//! - `marker`: the frame of the marker
//! - `frame I TEXT`: a frame with id I and a payload; `ints I N N ..`, with numbers of 4 bytes as its payload
//! - `bytes TEXT`: bytes that need not be a frame
//! - `cut N`: the last N bytes go
//!
//! The bytes are put together here, and not by the code that is tried.

use crate::bytes::plain_bytes;
use crate::number_words::{id, number, two_ids};
use case_files::{CaseFault, first_word};
use std::alloc::Global;

/// The bytes of a session file.
pub(crate) fn session_bytes(alloc: Global, text: &str) -> Result<Vec<u8>, CaseFault> {
    let (version, parts) = match text.split_once(": ") {
        Some((version, parts)) => (version, Some(parts)),
        None => (text, None),
    };
    let mut bytes = header(alloc, number(version)?)?;
    if let Some(parts) = parts {
        for part in parts.split(", ") {
            put_part(alloc, part, &mut bytes)?;
        }
    }
    Ok(bytes)
}

fn header(alloc: Global, version: u64) -> Result<Vec<u8>, CaseFault> {
    if version > 255 {
        return Err(CaseFault::Malformed("a version is below 256"));
    }
    let header = [b'S', b'N', b'S', b'S', version as u8, 0, 0, 0];
    Ok(Vec::from_slice(alloc, &header)?)
}

/// Puts the bytes of a part.
pub(crate) fn put_part(alloc: Global, part: &str, bytes: &mut Vec<u8>) -> Result<(), CaseFault> {
    let (kind, rest) = first_word(part);
    match kind {
        "tab" => put_ints(0, read_ints(alloc, rest)?.as_slice(), bytes),
        "index" | "restored" => put_ints(2, read_ints(alloc, rest)?.as_slice(), bytes),
        "current" => put_ints(7, read_ints(alloc, rest)?.as_slice(), bytes),
        "selected" => put_ints(8, read_ints(alloc, rest)?.as_slice(), bytes),
        "active" => put_ints(20, read_ints(alloc, rest)?.as_slice(), bytes),
        "closed" => put_ints(4, &[id(rest)?, 0, 0, 0], bytes),
        "page" => put_page(read_ints(alloc, rest)?.as_slice(), bytes),
        "pages" => put_pages(two_ids(rest)?, bytes),
        "shown" => put_shown(two_ids(rest)?, bytes),
        "ints" => {
            let (id, ints) = first_word(rest);
            put_ints(frame_id(id)?, read_ints(alloc, ints)?.as_slice(), bytes)
        }
        "frame" => {
            let (id, payload) = first_word(rest);
            put_frame(
                frame_id(id)?,
                plain_bytes(alloc, payload)?.as_slice(),
                bytes,
            )
        }
        "marker" => Ok(bytes.extend_from_slice(&[1, 0, 255])?),
        "bytes" => {
            let plain = plain_bytes(alloc, rest)?;
            Ok(bytes.extend_from_slice(plain.as_slice())?)
        }
        "cut" => cut(number(rest)?, bytes),
        _ => Err(CaseFault::Malformed("a session file has no such part")),
    }
}

fn read_ints(alloc: Global, text: &str) -> Result<Vec<i32>, CaseFault> {
    let mut ints = Vec::new(alloc);
    for word in text.split(' ') {
        match word.parse::<i32>() {
            Ok(int) => ints.push(int)?,
            Err(_) => return Err(CaseFault::Malformed("numbers of 32 bits are wanted")),
        }
    }
    Ok(ints)
}

fn frame_id(word: &str) -> Result<u8, CaseFault> {
    match u8::try_from(number(word)?) {
        Ok(id) => Ok(id),
        Err(_) => Err(CaseFault::Malformed("an id is below 256")),
    }
}

// The frame with an id and these numbers as its payload.
fn put_ints(id: u8, ints: &[i32], bytes: &mut Vec<u8>) -> Result<(), CaseFault> {
    let mut payload = Vec::new(*bytes.allocator());
    for int in ints {
        payload.extend_from_slice(&int.to_le_bytes())?;
    }
    put_frame(id, payload.as_slice(), bytes)
}

fn put_frame(id: u8, payload: &[u8], bytes: &mut Vec<u8>) -> Result<(), CaseFault> {
    if payload.len() >= 65_535 {
        return Err(CaseFault::Malformed("a payload has fewer bytes"));
    }
    let size = (payload.len() + 1) as u16;
    bytes.extend_from_slice(&size.to_le_bytes())?;
    bytes.push(id)?;
    Ok(bytes.extend_from_slice(payload)?)
}

// A page by its tab, its index and perhaps the length of its rest.
fn put_page(numbers: &[i32], bytes: &mut Vec<u8>) -> Result<(), CaseFault> {
    let (tab, index, rest) = match numbers {
        [tab, index] => (*tab, *index, 0),
        [tab, index, rest @ 0..=60_000] => (*tab, *index, *rest),
        _ => return Err(CaseFault::Malformed("a page has a tab, an index and a short rest")),
    };
    let mut payload = Vec::new(*bytes.allocator());
    // A pickle of 28 bytes and the rest: an address of one byte, no title, no page state, and transition 0.
    for int in [28 + rest, tab, index, 1, i32::from(b'a'), 0, 0, 0] {
        payload.extend_from_slice(&int.to_le_bytes())?;
    }
    payload.resize(payload.len() + rest as usize, 0)?;
    put_frame(6, payload.as_slice(), bytes)
}

fn put_pages(numbers: (i32, i32), bytes: &mut Vec<u8>) -> Result<(), CaseFault> {
    let (tab, count) = numbers;
    for index in 0..count {
        put_page(&[tab, index], bytes)?;
    }
    Ok(())
}

fn put_shown(ids: (i32, i32), bytes: &mut Vec<u8>) -> Result<(), CaseFault> {
    let (window, tab) = ids;
    put_ints(0, &[window, tab], bytes)?;
    put_ints(2, &[tab, 0], bytes)?;
    put_page(&[tab, 0], bytes)?;
    put_ints(7, &[tab, 0], bytes)?;
    put_ints(8, &[window, 0], bytes)?;
    put_ints(20, &[window], bytes)
}

fn cut(count: u64, bytes: &mut Vec<u8>) -> Result<(), CaseFault> {
    if count > bytes.len() as u64 {
        return Err(CaseFault::Malformed("there are fewer bytes"));
    }
    bytes.truncate(bytes.len() - count as usize);
    Ok(())
}
