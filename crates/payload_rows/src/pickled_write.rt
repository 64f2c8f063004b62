//! Payloads that are a pickle, one writer a shape. Each grows the bytes at most once, and leaves them as they were
//! where memory is short.
ghost use Rattle.std.specs.Prelude.{◌≡◌, ◌+◌, ◌%◌, ◌<◌, ◌≤◌, ◌^◌, [], ◌∷◌, ◌++◌, length, IsOk, OnOk, OnErr};
ghost use Rattle.std.specs.Vec.{vec_len, vec_capacity};
ghost use Rattle.pickle_cells.specs.Cell.{int, uint32, string, string_size};
ghost use Rattle.pickle_cells.specs.PickleLayout.{Int, Text, pickled_size};
ghost use Rattle.payload_rows.specs.PayloadLayout.{layout_bytes};
ghost use Rattle.payload_rows.specs.RowLayouts.{int_rest_row, int_text_row, int_two_texts_row, window_entry_row, window_entry_items, navigation_row, group_row};

use crate::fixed_write::int_bytes;
use crate::window_entry::{WindowEntry, write_window_entry};
use navigation_entry::{GroupInfo, Navigation, write_group, write_navigation};
use pickle_cells::string_item_size;
use std::alloc::AllocError;

/// A number and what follows it.
#[tactic(auto, using(crate::proofs::WriteLaws::int_rest_bytes))]
pub(crate) fn put_int_rest(number: i32, rest: &[u8], out: &mut Vec<u8>) -> Result<(), AllocError>
    requires whole { length rest.now % 4 ≡ 0 }
    requires short { pickled_size (Int number ∷ []) rest.now ≤ 65534 }
    ensures ok { OnOk result (out.new.items ≡ out.old.items ++ layout_bytes (int_rest_row number rest.now)) }
    ensures err { OnErr result (out.new.items ≡ out.old.items) }
{
    let size = 4 + rest.len();
    out.reserve(4 + size)?;
    out.extend_from_slice(&size_bytes(size))?;
    out.extend_from_slice(&int_bytes(number))?;
    out.extend_from_slice(rest)?;
    Ok(())
}

/// A number and a string.
#[tactic(auto, using(crate::proofs::WriteLaws::int_text_bytes))]
pub(crate) fn put_int_text(
    number: i32,
    text: &[u8],
    tail: &[u8],
    out: &mut Vec<u8>,
) -> Result<(), AllocError>
    requires whole { length tail.now % 4 ≡ 0 }
    requires short { pickled_size (Int number ∷ Text text.now ∷ []) tail.now ≤ 65534 }
    ensures ok { OnOk result (out.new.items ≡ out.old.items ++ layout_bytes (int_text_row number text.now tail.now)) }
    ensures err { OnErr result (out.new.items ≡ out.old.items) }
{
    let size = 4 + string_item_size(text.len()) + tail.len();
    out.reserve(4 + size)?;
    out.extend_from_slice(&size_bytes(size))?;
    out.extend_from_slice(&int_bytes(number))?;
    put_string(text, out)?;
    out.extend_from_slice(tail)?;
    Ok(())
}

/// A number and two strings.
#[tactic(auto, using(crate::proofs::WriteLaws::int_two_texts_bytes))]
pub(crate) fn put_int_two_texts(
    number: i32,
    key: &[u8],
    value: &[u8],
    tail: &[u8],
    out: &mut Vec<u8>,
) -> Result<(), AllocError>
    requires whole { length tail.now % 4 ≡ 0 }
    requires short { pickled_size (Int number ∷ Text key.now ∷ Text value.now ∷ []) tail.now ≤ 65534 }
    ensures ok { OnOk result
        (out.new.items ≡ out.old.items ++ layout_bytes (int_two_texts_row number key.now value.now tail.now)) }
    ensures err { OnErr result (out.new.items ≡ out.old.items) }
{
    let size = 4 + string_item_size(key.len()) + string_item_size(value.len()) + tail.len();
    out.reserve(4 + size)?;
    out.extend_from_slice(&size_bytes(size))?;
    out.extend_from_slice(&int_bytes(number))?;
    put_string(key, out)?;
    put_string(value, out)?;
    out.extend_from_slice(tail)?;
    Ok(())
}

/// What is known of a closed window, by way of a buffer of its own.
pub(crate) fn put_window_entry(
    entry: WindowEntry,
    tail: &[u8],
    out: &mut Vec<u8>,
) -> Result<(), AllocError>
    requires whole { length tail.now % 4 ≡ 0 }
    requires short { pickled_size (window_entry_items entry) tail.now ≤ 65534 }
    ensures ok { OnOk result (out.new.items ≡ out.old.items ++ layout_bytes (window_entry_row entry tail.now)) }
    ensures err { OnErr result (out.new.items ≡ out.old.items) }
{
    let pickle = write_window_entry(*out.allocator(), entry, tail)?;
    out.extend_from_slice(&pickle)?;
    Ok(())
}

/// A navigation of a tab at an index, by way of a buffer of its own.
pub(crate) fn put_navigation(
    tab: i32,
    index: i32,
    navigation: &Navigation,
    out: &mut Vec<u8>,
) -> Result<(), AllocError>
    ensures ok { OnOk result (out.new.items ≡ out.old.items ++ layout_bytes (navigation_row tab index navigation.now)) }
    ensures err { OnErr result (out.new.items ≡ out.old.items) }
{
    let pickle = write_navigation(*out.allocator(), tab, index, navigation)?;
    out.extend_from_slice(&pickle)?;
    Ok(())
}

/// What is known of a group, by way of a buffer of its own.
pub(crate) fn put_group(group: &GroupInfo, out: &mut Vec<u8>) -> Result<(), AllocError>
    ensures ok { OnOk result (out.new.items ≡ out.old.items ++ layout_bytes (group_row group.now)) }
    ensures err { OnErr result (out.new.items ≡ out.old.items) }
{
    let pickle = write_group(*out.allocator(), group)?;
    out.extend_from_slice(&pickle)?;
    Ok(())
}

#[tactic(auto, unfolding(pickle_cells::specs::Cell::uint32))]
fn size_bytes(size: usize) -> [u8; 4]
    requires { size < 2 ^ 32 }
    ensures { result ≡ uint32 size }
{
    (size as u32).to_le_bytes()
}

// The room is there, so that the call can't fail.
#[tactic(auto, unfolding(pickle_cells::specs::Cell::counted, pickle_cells::specs::Cell::int, pickle_cells::specs::Cell::padding))]
fn put_string(text: &[u8], out: &mut Vec<u8>) -> Result<(), AllocError>
    requires size { length text.now < 2 ^ 31 }
    requires room { vec_len out.old + string_size (length text.now) ≤ vec_capacity out.old }
    ensures done { IsOk result }
    ensures written { out.new.items ≡ out.old.items ++ string text.now }
    ensures len { vec_len out.new ≡ vec_len out.old + string_size (length text.now) }
    ensures room { vec_capacity out.old ≤ vec_capacity out.new }
{
    let padding = (4 - text.len() % 4) % 4;
    out.extend_from_slice(&(text.len() as u32).to_le_bytes())?;
    out.extend_from_slice(text)?;
    out.resize(out.len() + padding, 0)?;
    Ok(())
}
