//! Cases of reading: the question has the bytes of a pickle, or of items without a size; a line names the kind of an
//! item.
use crate::case_fault::CaseFault;
use crate::fault_text::put_pickle_fault;
use crate::payload::Payload;
use crate::text::{put_bytes, put_count, put_flag, put_int, put_pairs, put_text};
use crate::words::Words;
use pickle_cells::Cursor;
use std::alloc::{AllocError, Global};

/// What a cursor reads of a pickle; the reason, where its size field doesn't read.
pub(crate) fn pickle(
    alloc: Global,
    question: Words<'_>,
    kinds: &[Words<'_>],
) -> Result<String, CaseFault> {
    let payload = Payload::read(alloc, question)?;
    let mut out = String::new(alloc);
    match Cursor::new(payload.bytes.as_slice()) {
        Ok(cursor) => put_items(&mut out, cursor, kinds)?,
        Err(fault) => put_pickle_fault(&mut out, "", fault)?,
    }
    Ok(out)
}

/// What a cursor reads of items that stand without a size.
pub(crate) fn items(
    alloc: Global,
    question: Words<'_>,
    kinds: &[Words<'_>],
) -> Result<String, CaseFault> {
    let payload = Payload::read(alloc, question)?;
    let mut out = String::new(alloc);
    put_items(&mut out, Cursor::of_items(payload.bytes.as_slice()), kinds)?;
    Ok(out)
}

fn put_items(
    out: &mut String,
    mut cursor: Cursor<'_>,
    kinds: &[Words<'_>],
) -> Result<(), CaseFault> {
    for line in kinds {
        let mut words = *line;
        let kind = words.word()?;
        words.end()?;
        out.push_str(kind)?;
        if !put_item(out, &mut cursor, kind)? {
            return Err(line.malformed());
        }
        out.push_str("\n")?;
    }
    Ok(())
}

// False where no kind of item has this name.
fn put_item(out: &mut String, cursor: &mut Cursor<'_>, kind: &str) -> Result<bool, AllocError> {
    match kind {
        "int" => put_int_item(out, cursor)?,
        "int64" => put_int64_item(out, cursor)?,
        "uint32" => put_uint32_item(out, cursor)?,
        "uint64" => put_uint64_item(out, cursor)?,
        "flag" => put_flag_item(out, cursor)?,
        "bytes" => put_bytes_item(out, cursor)?,
        "units" => put_units_item(out, cursor)?,
        "rest" => put_bytes(out, " ", cursor.rest())?,
        _ => return Ok(false),
    }
    Ok(true)
}

fn put_int_item(out: &mut String, cursor: &mut Cursor<'_>) -> Result<(), AllocError> {
    match cursor.int() {
        Ok(number) => put_int(out, " ", i64::from(number)),
        Err(fault) => put_pickle_fault(out, " ", fault),
    }
}

fn put_int64_item(out: &mut String, cursor: &mut Cursor<'_>) -> Result<(), AllocError> {
    match cursor.int64() {
        Ok(number) => put_int(out, " ", number),
        Err(fault) => put_pickle_fault(out, " ", fault),
    }
}

fn put_uint32_item(out: &mut String, cursor: &mut Cursor<'_>) -> Result<(), AllocError> {
    match cursor.uint32() {
        Ok(number) => put_count(out, " ", u64::from(number)),
        Err(fault) => put_pickle_fault(out, " ", fault),
    }
}

fn put_uint64_item(out: &mut String, cursor: &mut Cursor<'_>) -> Result<(), AllocError> {
    match cursor.uint64() {
        Ok(number) => put_count(out, " ", number),
        Err(fault) => put_pickle_fault(out, " ", fault),
    }
}

fn put_flag_item(out: &mut String, cursor: &mut Cursor<'_>) -> Result<(), AllocError> {
    match cursor.flag() {
        Ok(flag) => put_flag(out, " ", flag),
        Err(fault) => put_pickle_fault(out, " ", fault),
    }
}

fn put_bytes_item(out: &mut String, cursor: &mut Cursor<'_>) -> Result<(), AllocError> {
    match cursor.bytes() {
        Ok(text) => put_text(out, " ", text),
        Err(fault) => put_pickle_fault(out, " ", fault),
    }
}

fn put_units_item(out: &mut String, cursor: &mut Cursor<'_>) -> Result<(), AllocError> {
    match cursor.units() {
        Ok(pairs) => put_pairs(out, " ", pairs),
        Err(fault) => put_pickle_fault(out, " ", fault),
    }
}
