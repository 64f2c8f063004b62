//! The words of single fields, each behind a space: numbers in decimal, flags as `true` or `false`, and texts as they
//! are shown, between double quotes.
ghost use Rattle.std.specs.Prelude.{◌≡◌, ◌++◌, OnOk};
ghost use Rattle.pickle_cells.specs.CellReading.{units_of};
ghost use Rattle.payload_words.specs.FieldWords.{number_word, signed_word, flag_word, text_word, units_word, length_word};

use itoa::Buffer;
use shown_texts::{show_bytes, show_pairs, show_units};
use std::alloc::AllocError;

/// Appends a space and a number in decimal. It grows `out` as far as it must, and takes no other memory. After an
/// `Err`, for want of memory, the space may have been appended.
pub fn put_number(n: u64, out: &mut Vec<u8>) -> Result<(), AllocError>
    ensures { OnOk result (out.new.items ≡ out.old.items ++ number_word n) }
{
    out.extend_from_slice(b" ")?;
    out.extend_from_slice(Buffer::new().format(n).as_bytes())?;
    Ok(())
}

pub(crate) fn put_signed(n: i64, out: &mut Vec<u8>) -> Result<(), AllocError>
    ensures { OnOk result (out.new.items ≡ out.old.items ++ signed_word n) }
{
    out.extend_from_slice(b" ")?;
    out.extend_from_slice(Buffer::new().format(n).as_bytes())?;
    Ok(())
}

pub(crate) fn put_flag(flag: bool, out: &mut Vec<u8>) -> Result<(), AllocError>
    ensures { OnOk result (out.new.items ≡ out.old.items ++ flag_word flag) }
{
    match flag {
        true => out.extend_from_slice(b" true"),
        false => out.extend_from_slice(b" false"),
    }
}

pub(crate) fn put_text(text: &[u8], out: &mut Vec<u8>) -> Result<(), AllocError>
    ensures { OnOk result (out.new.items ≡ out.old.items ++ text_word text.now) }
{
    out.extend_from_slice(b" \"")?;
    show_bytes(text, out)?;
    out.extend_from_slice(b"\"")?;
    Ok(())
}

pub(crate) fn put_units(units: &[u16], out: &mut Vec<u8>) -> Result<(), AllocError>
    ensures { OnOk result (out.new.items ≡ out.old.items ++ units_word units.now) }
{
    out.extend_from_slice(b" \"")?;
    show_units(units, out)?;
    out.extend_from_slice(b"\"")?;
    Ok(())
}

/// The units that stand in these bytes, two bytes a unit, little-endian.
pub(crate) fn put_unit_pairs(bytes: &[u8], out: &mut Vec<u8>) -> Result<(), AllocError>
    ensures { OnOk result (out.new.items ≡ out.old.items ++ units_word (units_of bytes.now)) }
{
    out.extend_from_slice(b" \"")?;
    show_pairs(bytes, out)?;
    out.extend_from_slice(b"\"")?;
    Ok(())
}

/// How many bytes these are, in place of what they say.
pub(crate) fn put_length(bytes: &[u8], out: &mut Vec<u8>) -> Result<(), AllocError>
    ensures { OnOk result (out.new.items ≡ out.old.items ++ length_word bytes.now) }
{
    out.extend_from_slice(b" [")?;
    out.extend_from_slice(Buffer::new().format(bytes.len()).as_bytes())?;
    out.extend_from_slice(b"]")?;
    Ok(())
}
