//! Payloads as the lines of a case give them: in digits, or by the name and the fields of a command.
ghost use Rattle.std.specs.Prelude.{◌≤◌, length};

use crate::case_fault::CaseFault;
use crate::table::{CommandRow, row_named};
use crate::words::Words;
use std::alloc::Global;

/// The bytes of a payload, no more than a frame takes.
#[derive(Drop)]
pub(crate) struct Payload {
    pub(crate) bytes: Vec<u8>,
    ghost short: { length bytes.items ≤ 65534 },
}

impl Payload {
    /// The line is malformed where the bytes are too many.
    fn new(line: Words<'_>, bytes: Vec<u8>) -> Result<Payload, CaseFault> {
        if bytes.len() > 65_534 {
            return Err(line.malformed());
        }
        Ok(Payload { bytes })
    }

    /// The bytes that are left of a line.
    pub(crate) fn read(alloc: Global, mut line: Words<'_>) -> Result<Payload, CaseFault> {
        let bytes = line.all_bytes(alloc)?;
        Payload::new(line, bytes)
    }

    /// The bytes of all lines.
    pub(crate) fn joined(
        alloc: Global,
        question: Words<'_>,
        lines: &[Words<'_>],
    ) -> Result<Payload, CaseFault> {
        let bytes = joined(alloc, lines)?;
        Payload::new(question, bytes)
    }
}

/// The bytes of all lines.
pub(crate) fn joined(alloc: Global, lines: &[Words<'_>]) -> Result<Vec<u8>, CaseFault> {
    let mut bytes = Vec::new(alloc);
    for line in lines {
        let mut words = *line;
        bytes.extend_from_slice(words.all_bytes(alloc)?.as_slice())?;
    }
    Ok(bytes)
}

/// The id and the payload of the command that a line names by a table; of one named `Raw`, as they follow.
pub(crate) fn named(
    alloc: Global,
    table: &'static str,
    line: Words<'_>,
) -> Result<(u8, Payload), CaseFault> {
    let mut words = line;
    let name = words.word()?;
    if name == "Raw" {
        return numbered(alloc, words);
    }
    match row_named(table, name) {
        Some(row) => Ok((row.id, Payload::new(line, written(alloc, &row, words)?)?)),
        None => Err(line.malformed()),
    }
}

/// The id and the payload that a line gives.
pub(crate) fn numbered(alloc: Global, line: Words<'_>) -> Result<(u8, Payload), CaseFault> {
    let mut words = line;
    let id = words.number::<u8>()?;
    Ok((id, Payload::read(alloc, words)?))
}

fn written(alloc: Global, row: &CommandRow, mut words: Words<'_>) -> Result<Vec<u8>, CaseFault> {
    let body = fields(alloc, row.fields, &mut words)?;
    if row.is_pickled {
        return pickled(words, body);
    }
    words.end()?;
    Ok(body)
}

fn fields(alloc: Global, fields: &str, words: &mut Words<'_>) -> Result<Vec<u8>, CaseFault> {
    let mut out = Vec::new(alloc);
    for field in fields.split(' ') {
        put_field(words, field, &mut out)?;
    }
    Ok(out)
}

// The size of the body and the body, which ends with the bytes that are left of the line.
fn pickled(mut words: Words<'_>, mut body: Vec<u8>) -> Result<Vec<u8>, CaseFault> {
    let alloc = *body.allocator();
    let tail = words.all_bytes(alloc)?;
    body.extend_from_slice(tail.as_slice())?;
    let mut pickle = Vec::new(alloc);
    put_size(words, body.len(), &mut pickle)?;
    pickle.extend_from_slice(body.as_slice())?;
    Ok(pickle)
}

fn put_field(words: &mut Words<'_>, field: &str, out: &mut Vec<u8>) -> Result<(), CaseFault> {
    match field {
        "text" => put_text(words, out),
        "units" => put_units(words, out),
        _ => put_number(words, field, out),
    }
}

fn put_number(words: &mut Words<'_>, field: &str, out: &mut Vec<u8>) -> Result<(), CaseFault> {
    match field {
        "int" => out.extend_from_slice(&words.number::<i32>()?.to_le_bytes())?,
        "int64" => out.extend_from_slice(&words.number::<i64>()?.to_le_bytes())?,
        "uint32" => out.extend_from_slice(&words.number::<u32>()?.to_le_bytes())?,
        "uint64" => out.extend_from_slice(&words.number::<u64>()?.to_le_bytes())?,
        "flag" => out.extend_from_slice(&[u8::from(words.flag()?), 0, 0, 0])?,
        "byte" => out.push(u8::from(words.flag()?))?,
        _ => out.extend_from_slice(&[0; 4])?,
    }
    Ok(())
}

fn put_text(words: &mut Words<'_>, out: &mut Vec<u8>) -> Result<(), CaseFault> {
    let text = words.bytes(*out.allocator())?;
    put_size(*words, text.len(), out)?;
    out.extend_from_slice(text.as_slice())?;
    put_padding(text.len(), out)
}

fn put_units(words: &mut Words<'_>, out: &mut Vec<u8>) -> Result<(), CaseFault> {
    let units = words.units(*out.allocator())?;
    put_size(*words, units.len(), out)?;
    for unit in units.as_slice() {
        out.extend_from_slice(&unit.to_le_bytes())?;
    }
    put_padding(units.len() % 2 * 2, out)
}

fn put_size(words: Words<'_>, size: usize, out: &mut Vec<u8>) -> Result<(), CaseFault> {
    match u32::try_from(size) {
        Ok(size) => Ok(out.extend_from_slice(&size.to_le_bytes())?),
        Err(_) => Err(words.malformed()),
    }
}

// Zeros up to a multiple of 4 bytes.
fn put_padding(size: usize, out: &mut Vec<u8>) -> Result<(), CaseFault> {
    for _ in 0..(4 - size % 4) % 4 {
        out.push(0)?;
    }
    Ok(())
}
