//! Payloads of fixed length, one writer a shape. Each grows the bytes at most once, and leaves them as they were
//! where memory is short.
ghost use Rattle.std.specs.Prelude.{◌≡◌, ◌++◌, OnOk, OnErr};
ghost use Rattle.payload_rows.specs.PayloadLayout.{layout_bytes};
ghost use Rattle.payload_rows.specs.RowLayouts.{flag_row, int_row, two_ints_row, three_ints_row, int_flag_row, int_time_row, two_ints_time_row, window_bounds_row, tab_group_row};
ghost use Rattle.pickle_cells.specs.Cell.{int, int64, uint64};

use navigation_entry::Bounds;
use std::alloc::AllocError;

#[tactic(auto, unfolding(pickle_cells::specs::Layout::fields_bytes, pickle_cells::specs::Layout::field_bytes))]
pub(crate) fn put_flag(flag: bool, out: &mut Vec<u8>) -> Result<(), AllocError>
    ensures ok { OnOk result (out.new.items ≡ out.old.items ++ layout_bytes (flag_row flag)) }
    ensures err { OnErr result (out.new.items ≡ out.old.items) }
{
    out.extend_from_slice(&[flag as u8])
}

#[tactic(auto, unfolding(pickle_cells::specs::Layout::fields_bytes, pickle_cells::specs::Layout::field_bytes))]
pub(crate) fn put_int(a: i32, out: &mut Vec<u8>) -> Result<(), AllocError>
    ensures ok { OnOk result (out.new.items ≡ out.old.items ++ layout_bytes (int_row a)) }
    ensures err { OnErr result (out.new.items ≡ out.old.items) }
{
    out.reserve(4)?;
    out.extend_from_slice(&int_bytes(a))?;
    Ok(())
}

#[tactic(auto, unfolding(pickle_cells::specs::Layout::fields_bytes, pickle_cells::specs::Layout::field_bytes))]
pub(crate) fn put_two_ints(a: i32, b: i32, out: &mut Vec<u8>) -> Result<(), AllocError>
    ensures ok { OnOk result (out.new.items ≡ out.old.items ++ layout_bytes (two_ints_row a b)) }
    ensures err { OnErr result (out.new.items ≡ out.old.items) }
{
    out.reserve(8)?;
    out.extend_from_slice(&int_bytes(a))?;
    out.extend_from_slice(&int_bytes(b))?;
    Ok(())
}

#[tactic(auto, unfolding(pickle_cells::specs::Layout::fields_bytes, pickle_cells::specs::Layout::field_bytes))]
pub(crate) fn put_three_ints(a: i32, b: i32, c: i32, out: &mut Vec<u8>) -> Result<(), AllocError>
    ensures ok { OnOk result (out.new.items ≡ out.old.items ++ layout_bytes (three_ints_row a b c)) }
    ensures err { OnErr result (out.new.items ≡ out.old.items) }
{
    out.reserve(12)?;
    out.extend_from_slice(&int_bytes(a))?;
    out.extend_from_slice(&int_bytes(b))?;
    out.extend_from_slice(&int_bytes(c))?;
    Ok(())
}

#[tactic(auto, unfolding(pickle_cells::specs::Layout::fields_bytes, pickle_cells::specs::Layout::field_bytes))]
pub(crate) fn put_int_flag(a: i32, flag: bool, out: &mut Vec<u8>) -> Result<(), AllocError>
    ensures ok { OnOk result (out.new.items ≡ out.old.items ++ layout_bytes (int_flag_row a flag)) }
    ensures err { OnErr result (out.new.items ≡ out.old.items) }
{
    out.reserve(8)?;
    out.extend_from_slice(&int_bytes(a))?;
    out.extend_from_slice(&[flag as u8, 0, 0, 0])?;
    Ok(())
}

#[tactic(auto, unfolding(pickle_cells::specs::Layout::fields_bytes, pickle_cells::specs::Layout::field_bytes))]
pub(crate) fn put_int_time(a: i32, time: i64, out: &mut Vec<u8>) -> Result<(), AllocError>
    ensures ok { OnOk result (out.new.items ≡ out.old.items ++ layout_bytes (int_time_row a time)) }
    ensures err { OnErr result (out.new.items ≡ out.old.items) }
{
    out.reserve(16)?;
    out.extend_from_slice(&int_bytes(a))?;
    out.extend_from_slice(&[0; 4])?;
    out.extend_from_slice(&int64_bytes(time))?;
    Ok(())
}

#[tactic(auto, unfolding(pickle_cells::specs::Layout::fields_bytes, pickle_cells::specs::Layout::field_bytes))]
pub(crate) fn put_two_ints_time(
    a: i32,
    b: i32,
    time: i64,
    out: &mut Vec<u8>,
) -> Result<(), AllocError>
    ensures ok { OnOk result (out.new.items ≡ out.old.items ++ layout_bytes (two_ints_time_row a b time)) }
    ensures err { OnErr result (out.new.items ≡ out.old.items) }
{
    out.reserve(16)?;
    out.extend_from_slice(&int_bytes(a))?;
    out.extend_from_slice(&int_bytes(b))?;
    out.extend_from_slice(&int64_bytes(time))?;
    Ok(())
}

#[tactic(auto, unfolding(pickle_cells::specs::Layout::fields_bytes, pickle_cells::specs::Layout::field_bytes))]
pub(crate) fn put_window_bounds(
    window: i32,
    bounds: Bounds,
    out: &mut Vec<u8>,
) -> Result<(), AllocError>
    ensures ok { OnOk result (out.new.items ≡ out.old.items ++ layout_bytes (window_bounds_row window bounds)) }
    ensures err { OnErr result (out.new.items ≡ out.old.items) }
{
    out.reserve(24)?;
    out.extend_from_slice(&int_bytes(window))?;
    out.extend_from_slice(&int_bytes(bounds.x))?;
    out.extend_from_slice(&int_bytes(bounds.y))?;
    out.extend_from_slice(&int_bytes(bounds.width))?;
    out.extend_from_slice(&int_bytes(bounds.height))?;
    out.extend_from_slice(&int_bytes(bounds.show))?;
    Ok(())
}

#[tactic(auto, unfolding(pickle_cells::specs::Layout::fields_bytes, pickle_cells::specs::Layout::field_bytes))]
pub(crate) fn put_tab_group(
    tab: i32,
    high: u64,
    low: u64,
    grouped: bool,
    out: &mut Vec<u8>,
) -> Result<(), AllocError>
    ensures ok { OnOk result (out.new.items ≡ out.old.items ++ layout_bytes (tab_group_row tab high low grouped)) }
    ensures err { OnErr result (out.new.items ≡ out.old.items) }
{
    out.reserve(32)?;
    out.extend_from_slice(&int_bytes(tab))?;
    out.extend_from_slice(&[0; 4])?;
    out.extend_from_slice(&uint64_bytes(high))?;
    out.extend_from_slice(&uint64_bytes(low))?;
    out.extend_from_slice(&[grouped as u8, 0, 0, 0, 0, 0, 0, 0])?;
    Ok(())
}

#[tactic(auto, unfolding(pickle_cells::specs::Cell::int))]
pub(crate) fn int_bytes(a: i32) -> [u8; 4]
    ensures { result ≡ int a }
{
    a.cast_unsigned().to_le_bytes()
}

#[tactic(auto, unfolding(pickle_cells::specs::Cell::int64))]
fn int64_bytes(a: i64) -> [u8; 8]
    ensures { result ≡ int64 a }
{
    a.cast_unsigned().to_le_bytes()
}

#[tactic(auto, unfolding(pickle_cells::specs::Cell::uint64))]
fn uint64_bytes(n: u64) -> [u8; 8]
    ensures { result ≡ uint64 n }
{
    n.to_le_bytes()
}
