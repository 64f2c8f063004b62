//! What is known of a closed window, read from a pickle and written to one.
ghost use Rattle.std.specs.Prelude.{◌≡◌, ◌+◌, ◌%◌, ◌≤◌, ◌++◌, length, IfOk, OnOk};
ghost use Rattle.pickle_cells.specs.PickleLayout.{IsReadAs, pickled_at, pickled_bytes, pickled_size};
ghost use Rattle.payload_rows.specs.RowLayouts.{bounds_bytes, window_entry_items};
ghost use Rattle.payload_rows.specs.Shapes.{window_entry_kinds};

use navigation_entry::Bounds;
use pickle_cells::{Cursor, PickleFault, PickleWriter};
use std::alloc::{AllocError, Global};

/// A closed window: the place of the tab that it showed, how many tabs it had, when it was closed, and where it stood.
#[derive(Clone, Copy)]
pub struct WindowEntry {
    pub window: i32,
    pub selected: i32,
    pub count: i32,
    pub time: i64,
    pub bounds: Bounds,
}

/// The closed window that a pickle says, and the tail behind it.
#[tactic(auto, unfolding(pickle_cells::specs::PickleLayout::pickled_at, pickle_cells::specs::PickleLayout::items_at, pickle_cells::specs::PickleLayout::item_at))]
pub(crate) fn read_window_entry(payload: &[u8]) -> Result<(WindowEntry, &[u8]), PickleFault>
    requires { length payload.now ≤ 65534 }
    ensures { IsReadAs (λ x. (window_entry_items x.0, x.1.now)) result (pickled_at window_entry_kinds payload.now) }
{
    let mut cursor = Cursor::new(payload)?;
    let window = cursor.int()?;
    let selected = cursor.int()?;
    let count = cursor.int()?;
    let time = cursor.int64()?;
    let x = cursor.int()?;
    let y = cursor.int()?;
    let width = cursor.int()?;
    let height = cursor.int()?;
    let show = cursor.int()?;
    let bounds = Bounds {
        x,
        y,
        width,
        height,
        show,
    };
    let entry = WindowEntry {
        window,
        selected,
        count,
        time,
        bounds,
    };
    Ok((entry, cursor.rest()))
}

/// The pickle of a closed window and a tail, in one allocation.
#[tactic(auto, using(pickle_cells::proofs::ItemLaws::lengths), unfolding(pickle_cells::specs::PickleLayout::pickled_bytes, pickle_cells::specs::PickleLayout::items_bytes, pickle_cells::specs::PickleLayout::item_bytes))]
pub(crate) fn write_window_entry(
    alloc: Global,
    entry: WindowEntry,
    tail: &[u8],
) -> Result<Vec<u8>, AllocError>
    requires whole { length tail.now % 4 ≡ 0 }
    requires short { pickled_size (window_entry_items entry) tail.now ≤ 65534 }
    ensures { IfOk result (λ bytes. bytes.items ≡ pickled_bytes (window_entry_items entry) tail.now) }
{
    let mut writer = PickleWriter::with_capacity(alloc, 40 + tail.len())?;
    writer.put_int(entry.window)?;
    writer.put_int(entry.selected)?;
    writer.put_int(entry.count)?;
    writer.put_int64(entry.time)?;
    put_bounds(entry.bounds, &mut writer)?;
    writer.put_rest(tail)?;
    Ok(writer.finish())
}

#[tactic(auto, using(pickle_cells::proofs::ItemLaws::lengths))]
fn put_bounds(bounds: Bounds, writer: &mut PickleWriter) -> Result<(), AllocError>
    requires { length writer.old + 20 ≤ 65530 }
    ensures written { OnOk result (writer.new ≡ writer.old ++ bounds_bytes bounds) }
    ensures len { OnOk result (length writer.new ≡ length writer.old + 20) }
{
    writer.put_int(bounds.x)?;
    writer.put_int(bounds.y)?;
    writer.put_int(bounds.width)?;
    writer.put_int(bounds.height)?;
    writer.put_int(bounds.show)?;
    Ok(())
}
