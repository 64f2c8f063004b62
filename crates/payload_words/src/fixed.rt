//! The words of a payload of fixed length: its fields where they stand.
ghost use Rattle.std.specs.Prelude.{◌≡◌, ◌+◌, ◌*◌, ◌≤◌, ◌<◌, ◌++◌, length, OnOk};
ghost use Rattle.std.specs.Int.{w64, from_le_bytes};
ghost use Rattle.payload_rows.specs.FixedReading.{field_width, width, int_at, int64_at, uint64_at, flag_at, field_at, fields_at};
ghost use Rattle.payload_rows.specs.PayloadLayout.{FixedShape};
ghost use Rattle.payload_words.specs.FieldWords.{field_word, field_words};
ghost use Rattle.payload_words.specs.Words.{shape_words};

use crate::fault::put_wrong_length;
use crate::fields::{put_flag, put_number, put_signed};
use payload_rows::FieldKind;
use std::alloc::AllocError;

/// The words of the fields of these kinds, or that the payload isn't as long as they are together.
pub(crate) fn put_fixed(
    kinds: &[FieldKind],
    payload: &[u8],
    out: &mut Vec<u8>,
) -> Result<(), AllocError>
    requires { length kinds.now ≤ 8 }
    ensures { OnOk result (out.new.items ≡ out.old.items ++ shape_words (FixedShape kinds.now) payload.now) }
{
    let wanted = width(kinds);
    if payload.len() == wanted {
        put_fields(kinds, 0, payload, out)
    } else {
        put_wrong_length(wanted, payload.len(), out)
    }
}

// The fields of these kinds, the first of which begins at the place.
fn put_fields(
    kinds: &[FieldKind],
    place: usize,
    payload: &[u8],
    out: &mut Vec<u8>,
) -> Result<(), AllocError>
    requires { place + width kinds.now ≤ length payload.now }
    ensures { OnOk result (out.new.items ≡ out.old.items ++ field_words (fields_at kinds.now place payload.now)) }
{
    match kinds {
        [] => Ok(()),
        [kind, others @ ..] => {
            put_field(*kind, place, payload, out)?;
            put_fields(others, place + kind_width(*kind), payload, out)?;
            Ok(())
        }
    }
}

#[tactic(auto, unfolding(crate::specs::FieldWords::field_word))]
fn put_field(
    kind: FieldKind,
    place: usize,
    payload: &[u8],
    out: &mut Vec<u8>,
) -> Result<(), AllocError>
    requires { place + field_width kind ≤ length payload.now }
    ensures { OnOk result (out.new.items ≡ out.old.items ++ field_word (field_at kind place payload.now)) }
{
    match kind {
        FieldKind::Int => put_signed(int_in(payload, place) as i64, out),
        FieldKind::Int64 => put_signed(int64_in(payload, place), out),
        FieldKind::Uint64 => put_number(uint64_in(payload, place), out),
        FieldKind::Flag => put_flag(flag_in(payload, place), out),
        FieldKind::Free(_) => Ok(()),
    }
}

fn width(kinds: &[FieldKind]) -> usize
    requires { length kinds.now ≤ 8 }
    ensures exact { result ≡ width kinds.now }
    ensures small { result ≤ 256 * length kinds.now }
{
    match kinds {
        [] => 0,
        [kind, others @ ..] => kind_width(*kind) + width(others),
    }
}

fn kind_width(kind: FieldKind) -> usize
    ensures exact { result ≡ field_width kind }
    ensures small { result ≤ 256 }
{
    match kind {
        FieldKind::Int => 4,
        FieldKind::Int64 | FieldKind::Uint64 => 8,
        FieldKind::Flag => 1,
        FieldKind::Free(bytes) => bytes as usize,
    }
}

#[tactic(auto, unfolding(payload_rows::specs::FixedReading::int_at))]
fn int_in(bytes: &[u8], place: usize) -> i32
    requires { place + 4 ≤ length bytes.now }
    ensures { result ≡ int_at place bytes.now }
{
    let word = &bytes[place..place + 4];
    u32::from_le_bytes([word[0], word[1], word[2], word[3]]).cast_signed()
}

#[tactic(auto, unfolding(payload_rows::specs::FixedReading::int64_at))]
fn int64_in(bytes: &[u8], place: usize) -> i64
    requires { place + 8 ≤ length bytes.now }
    ensures { result ≡ int64_at place bytes.now }
{
    uint64_of(&bytes[place..place + 8]).cast_signed()
}

#[tactic(auto, unfolding(payload_rows::specs::FixedReading::uint64_at))]
fn uint64_in(bytes: &[u8], place: usize) -> u64
    requires { place + 8 ≤ length bytes.now }
    ensures { result ≡ uint64_at place bytes.now }
{
    uint64_of(&bytes[place..place + 8])
}

fn uint64_of(word: &[u8]) -> u64
    requires { length word.now ≡ 8 }
    ensures { result ≡ from_le_bytes w64 word.now }
{
    u64::from_le_bytes([
        word[0], word[1], word[2], word[3], word[4], word[5], word[6], word[7],
    ])
}

#[tactic(auto, unfolding(payload_rows::specs::FixedReading::flag_at))]
fn flag_in(bytes: &[u8], place: usize) -> bool
    requires { place < length bytes.now }
    ensures { result ≡ flag_at place bytes.now }
{
    bytes[place] != 0
}
