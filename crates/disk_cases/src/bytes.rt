//! Bytes in a step: text in which `\x` and two hexadecimal digits stand for any byte, or a session file as
//! `session_files.rt` has it.

use crate::session_files::session_bytes;
use case_files::CaseFault;
use std::alloc::{AllocError, Global};
use std::fmt::Write;

/// The bytes that a text says.
pub fn read_bytes(alloc: Global, text: &str) -> Result<Vec<u8>, CaseFault> {
    match text.strip_prefix("session ") {
        Some(session) => session_bytes(alloc, session),
        None => plain_bytes(alloc, text),
    }
}

/// The bytes of a text with escapes.
pub fn plain_bytes(alloc: Global, text: &str) -> Result<Vec<u8>, CaseFault> {
    let mut bytes = Vec::new(alloc);
    let mut pieces = text.split("\\x");
    if let Some(first) = pieces.next() {
        bytes.extend_from_slice(first.as_bytes())?;
    }
    for piece in pieces {
        let Some((digits, others)) = piece.split_at_checked(2) else {
            return Err(CaseFault::Malformed("two digits follow \\x"));
        };
        put_digits(digits, &mut bytes)?;
        bytes.extend_from_slice(others.as_bytes())?;
    }
    Ok(bytes)
}

// Puts the byte of two hexadecimal digits.
fn put_digits(digits: &str, bytes: &mut Vec<u8>) -> Result<(), CaseFault> {
    match hex::decode(*bytes.allocator(), digits) {
        Ok(byte) => Ok(bytes.extend_from_slice(byte.as_slice())?),
        Err(_) => Err(CaseFault::Malformed("two hexadecimal digits follow \\x")),
    }
}

/// Bytes as `plain_bytes` takes them: letters, digits and signs as they are, all others with escapes; `no bytes` for
/// none.
pub fn write_bytes(alloc: Global, bytes: &[u8]) -> Result<String, AllocError> {
    if bytes.is_empty() {
        return String::from_str(alloc, "no bytes");
    }
    let mut text = String::new(alloc);
    for byte in bytes {
        write_byte(&mut text, *byte)?;
    }
    Ok(text)
}

fn write_byte(text: &mut String, byte: u8) -> Result<(), AllocError> {
    if byte.is_ascii_graphic() && byte != b'\\' {
        return text.push(char::from(byte));
    }
    write!(text, "\\x{byte:02x}")
}
