//! Numbers, texts and bytes as cases write them, each behind the words that introduce it.
use pickle_cells::Blob;
use std::alloc::AllocError;
use std::fmt::Write;

/// More bytes than these are told by their number.
const SHOWN: usize = 96;

pub(crate) fn put_int(out: &mut String, words: &str, number: i64) -> Result<(), AllocError> {
    out.push_str(words)?;
    write!(out, "{number}")
}

pub(crate) fn put_count(out: &mut String, words: &str, number: u64) -> Result<(), AllocError> {
    out.push_str(words)?;
    write!(out, "{number}")
}

pub(crate) fn put_flag(out: &mut String, words: &str, flag: bool) -> Result<(), AllocError> {
    out.push_str(words)?;
    out.push_str(if flag { "true" } else { "false" })
}

/// Bytes in hexadecimal digits, or their number where they are many; nothing where there are none.
pub(crate) fn put_bytes(out: &mut String, words: &str, bytes: &[u8]) -> Result<(), AllocError> {
    if bytes.is_empty() {
        return Ok(());
    }
    out.push_str(words)?;
    if bytes.len() > SHOWN {
        return write!(out, "{} bytes", bytes.len());
    }
    for byte in bytes {
        write!(out, "{byte:02x}")?;
    }
    Ok(())
}

/// Bytes as a text in double quotes, or their number where they are many.
pub(crate) fn put_text(out: &mut String, words: &str, bytes: &[u8]) -> Result<(), AllocError> {
    if bytes.len() > SHOWN {
        return put_bytes(out, words, bytes);
    }
    out.push_str(words)?;
    out.push_str("\"")?;
    for byte in bytes {
        put_byte(out, *byte)?;
    }
    out.push_str("\"")
}

// Letters, digits and most signs stand for themselves.
fn is_plain(unit: u16) -> bool {
    (0x21..0x7F).contains(&unit) && unit != 0x22 && unit != 0x5C
}

fn put_byte(out: &mut String, byte: u8) -> Result<(), AllocError> {
    if is_plain(u16::from(byte)) {
        return out.push(char::from(byte));
    }
    write!(out, "\\x{byte:02x}")
}

pub(crate) fn put_units(out: &mut String, words: &str, units: &[u16]) -> Result<(), AllocError> {
    out.push_str(words)?;
    out.push_str("\"")?;
    for unit in units {
        put_unit(out, *unit)?;
    }
    out.push_str("\"")
}

fn put_unit(out: &mut String, unit: u16) -> Result<(), AllocError> {
    match u8::try_from(unit) {
        Ok(byte) if is_plain(unit) => out.push(char::from(byte)),
        _ => write!(out, "\\u{unit:04x}"),
    }
}

/// Units that stand as two bytes each, little-endian.
pub(crate) fn put_pairs(out: &mut String, words: &str, pairs: &[u8]) -> Result<(), AllocError> {
    out.push_str(words)?;
    out.push_str("\"")?;
    for pair in pairs.chunks(2) {
        let low = pair.first().copied().unwrap_or(0);
        let high = pair.get(1).copied().unwrap_or(0);
        put_unit(out, u16::from_le_bytes([low, high]))?;
    }
    out.push_str("\"")
}

/// A text behind its words, where there is one.
pub(crate) fn put_blob(
    out: &mut String,
    words: &str,
    blob: &Option<Blob>,
) -> Result<(), AllocError> {
    match blob {
        Some(blob) => put_text(out, words, blob.as_slice()),
        None => Ok(()),
    }
}
