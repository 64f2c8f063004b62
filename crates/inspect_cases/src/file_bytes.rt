//! Bytes of a file in a step: parts, with a comma and a space between two of them. A part is
//!
//! - `frame ID WORD WORD ..`: a frame with its size, its id and the words as its payload
//! - `pickle ID WORD WORD ..`: the same, where the size of the payload's body stands before the words
//! - `WORD WORD ..`: bytes that need not be a frame
//!
//! with these words:
//!
//! - `H`, `H1`: a header of version 3, or of version 1; `K`: the frame of the marker
//! - `0C000000`: bytes in hexadecimal; `32*00`: bytes that stand so many times
//! - `#-1`: a number of 32 bits in 4 bytes
//! - `"ab"`: the bytes of a text, where `\x` and two hexadecimal digits stand for any byte; `s"ab"`: such a text as a
//!   pickle has it, with its count and with zeros up to a multiple of 4; `u"ab"`: the same in units of 16 bits
//!
//! The bytes are put together here, and not by the code that is tried.

use case_files::{CaseFault, first_word};
use disk_cases::{number, plain_bytes};
use std::alloc::Global;

/// The bytes of a file.
pub(crate) fn file_bytes(alloc: Global, text: &str) -> Result<Vec<u8>, CaseFault> {
    let mut bytes = Vec::new(alloc);
    if text.is_empty() {
        return Ok(bytes);
    }
    for part in text.split(", ") {
        put_part(alloc, part, &mut bytes)?;
    }
    Ok(bytes)
}

fn put_part(alloc: Global, part: &str, bytes: &mut Vec<u8>) -> Result<(), CaseFault> {
    let (kind, frame) = first_word(part);
    let (id, words) = first_word(frame);
    match kind {
        "frame" => put_frame(
            number(id)?,
            &[],
            word_bytes(alloc, words)?.as_slice(),
            bytes,
        ),
        "pickle" => {
            let body = word_bytes(alloc, words)?;
            put_frame(number(id)?, &count(body.len())?, body.as_slice(), bytes)
        }
        _ => Ok(bytes.extend_from_slice(word_bytes(alloc, part)?.as_slice())?),
    }
}

// A frame of this id, and of a payload in two parts.
fn put_frame(id: u64, first: &[u8], second: &[u8], bytes: &mut Vec<u8>) -> Result<(), CaseFault> {
    let Ok(id) = u8::try_from(id) else {
        return Err(CaseFault::Malformed("an id is below 256"));
    };
    let length = first.len().saturating_add(second.len());
    let Ok(size) = u16::try_from(length.saturating_add(1)) else {
        return Err(CaseFault::Malformed("a payload has at most 65534 bytes"));
    };
    bytes.extend_from_slice(&size.to_le_bytes())?;
    bytes.push(id)?;
    bytes.extend_from_slice(first)?;
    Ok(bytes.extend_from_slice(second)?)
}

// A count of bytes or characters in 4 bytes.
fn count(length: usize) -> Result<[u8; 4], CaseFault> {
    match u32::try_from(length) {
        Ok(count) => Ok(count.to_le_bytes()),
        Err(_) => Err(CaseFault::Malformed("a count has 32 bits")),
    }
}

fn word_bytes(alloc: Global, words: &str) -> Result<Vec<u8>, CaseFault> {
    let mut bytes = Vec::new(alloc);
    if words.is_empty() {
        return Ok(bytes);
    }
    for word in words.split(' ') {
        put_word(alloc, word, &mut bytes)?;
    }
    Ok(bytes)
}

fn put_word(alloc: Global, word: &str, bytes: &mut Vec<u8>) -> Result<(), CaseFault> {
    match word {
        "H" => Ok(bytes.extend_from_slice(b"SNSS\x03\0\0\0")?),
        "H1" => Ok(bytes.extend_from_slice(b"SNSS\x01\0\0\0")?),
        "K" => Ok(bytes.extend_from_slice(b"\x01\0\xFF")?),
        _ => match word.strip_suffix('"') {
            Some(text) => put_text(alloc, text, bytes),
            None => put_number(alloc, word, bytes),
        },
    }
}

// A text behind its kind and a quote.
fn put_text(alloc: Global, word: &str, bytes: &mut Vec<u8>) -> Result<(), CaseFault> {
    let Some((kind, text)) = word.split_once('"') else {
        return Err(CaseFault::Malformed("a text stands between quotes"));
    };
    let text = plain_bytes(alloc, text)?;
    match kind {
        "" => Ok(bytes.extend_from_slice(text.as_slice())?),
        "s" => put_counted(text.as_slice(), &[], bytes),
        "u" => put_counted(text.as_slice(), &[0], bytes),
        _ => Err(CaseFault::Malformed("a text has no such kind")),
    }
}

// A text with its count and its padding; these bytes stand behind each of its own.
fn put_counted(text: &[u8], behind: &[u8], bytes: &mut Vec<u8>) -> Result<(), CaseFault> {
    bytes.extend_from_slice(&count(text.len())?)?;
    let mut characters = Vec::new(*bytes.allocator());
    for byte in text {
        characters.push(*byte)?;
        characters.extend_from_slice(behind)?;
    }
    bytes.extend_from_slice(characters.as_slice())?;
    let padding = (4 - characters.len() % 4) % 4;
    Ok(bytes.extend_from_slice([0; 3].get(..padding).unwrap_or(&[]))?)
}

fn put_number(alloc: Global, word: &str, bytes: &mut Vec<u8>) -> Result<(), CaseFault> {
    if let Some(int) = word.strip_prefix('#') {
        return match int.parse::<i32>() {
            Ok(int) => Ok(bytes.extend_from_slice(&int.to_le_bytes())?),
            Err(_) => Err(CaseFault::Malformed("a number of 32 bits follows #")),
        };
    }
    let (times, digits) = word.split_once('*').unwrap_or(("1", word));
    let Ok(digits) = hex::decode(alloc, digits) else {
        return Err(CaseFault::Malformed("hexadecimal digits are wanted"));
    };
    for _ in 0..number(times)?.min(100_000) {
        bytes.extend_from_slice(digits.as_slice())?;
    }
    Ok(())
}
