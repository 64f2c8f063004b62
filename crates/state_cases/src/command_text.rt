//! Commands as a case writes them, by name and fields, from the payloads that are written for them.
use crate::table::{CommandRow, row_of};
use crate::text::{put_bytes, put_count, put_flag, put_int, put_pairs, put_text};
use std::alloc::AllocError;

/// A line with the command of a payload; a raw one is told by its id and its bytes.
pub(crate) fn put_command(
    out: &mut String,
    table: &'static str,
    id: u8,
    payload: &[u8],
    is_raw: bool,
) -> Result<(), AllocError> {
    match row_of(table, id) {
        Some(row) if !is_raw => put_row(out, &row, payload)?,
        _ => {
            put_count(out, "Raw ", u64::from(id))?;
            put_bytes(out, " ", payload)?;
        }
    }
    out.push_str("\n")
}

fn put_row(out: &mut String, row: &CommandRow, payload: &[u8]) -> Result<(), AllocError> {
    let mut unread = Unread { bytes: payload };
    if row.is_pickled {
        unread.take(4);
    }
    out.push_str(row.name)?;
    put_fields(out, row.fields, &mut unread)?;
    put_bytes(out, " ", unread.bytes)
}

fn put_fields(out: &mut String, fields: &str, unread: &mut Unread<'_>) -> Result<(), AllocError> {
    for field in fields.split(' ') {
        put_field(out, field, unread)?;
    }
    Ok(())
}

fn put_field(out: &mut String, field: &str, unread: &mut Unread<'_>) -> Result<(), AllocError> {
    match field {
        "int" => put_int(out, " ", i64::from(unread.short().cast_signed())),
        "int64" => put_int(out, " ", unread.long().cast_signed()),
        "uint32" => put_count(out, " ", u64::from(unread.short())),
        "uint64" => put_count(out, " ", unread.long()),
        "flag" => put_flag(out, " ", unread.short() != 0),
        "byte" => put_flag(out, " ", unread.take(1) != b"\0".as_slice()),
        "text" => put_text(out, " ", unread.counted(1)),
        "units" => put_pairs(out, " ", unread.counted(2)),
        _ => {
            unread.take(4);
            Ok(())
        }
    }
}

// What is left of a payload. Bytes that are missing count as none and as 0.
#[derive(Drop)]
struct Unread<'a> {
    bytes: &'a [u8],
}

impl<'a> Unread<'a> {
    fn take(&mut self, size: usize) -> &'a [u8] {
        let (taken, left) = self.bytes.split_at(size.min(self.bytes.len()));
        self.bytes = left;
        taken
    }

    fn long(&mut self) -> u64 {
        let mut room = [0; 8];
        for (place, byte) in room.iter_mut().zip(self.take(8)) {
            *place = *byte;
        }
        u64::from_le_bytes(room)
    }

    fn short(&mut self) -> u32 {
        let mut room = [0; 4];
        for (place, byte) in room.iter_mut().zip(self.take(4)) {
            *place = *byte;
        }
        u32::from_le_bytes(room)
    }

    // So many characters as a number says, each of so many bytes, and behind them the padding.
    fn counted(&mut self, width: usize) -> &'a [u8] {
        let size = (self.short() as usize).saturating_mul(width);
        let text = self.take(size);
        self.take((4 - size % 4) % 4);
        text
    }
}
