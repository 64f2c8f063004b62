//! Groups read from payloads and written to them.
ghost use Rattle.std.specs.Prelude.{◌≡◌, ◌≤◌, length, IfOk, IsOkAnd};
ghost use Rattle.pickle_cells.specs.PickleLayout.{IsPickled, IsReadAs, pickled_at};
ghost use Rattle.navigation_entry.specs.declared.group.GroupInfo.{GroupInfo};
ghost use Rattle.navigation_entry.specs.Layouts.{group_kinds};
ghost use Rattle.navigation_entry.specs.GroupViews.{IsGroup, group_bytes, group_ref_items, group_ref_parts, ShowsGroup};

use crate::group::{GroupInfo, GroupRef};
use pickle_cells::{Cursor, PickleFault, PickleWriter, string_item_size};
use std::alloc::{AllocError, Global};

/// The group that a payload says. The first field that doesn't read gives its fault. It takes no memory, and touches
/// each byte at most once.
pub fn read_group(payload: &[u8]) -> Result<GroupRef<'_>, PickleFault>
    requires { length payload.now ≤ 65534 }
    ensures found { IfOk result (λ r. IsPickled (group_ref_items r) r.rest.now payload.now) }
    ensures only { (g : GroupInfo) → IsGroup g payload.now → IsOkAnd result (λ r. ShowsGroup r g) }
    ensures exact { IsReadAs group_ref_parts result (pickled_at group_kinds payload.now) }
{
    group_parts(payload)
}

/// The payload that says a group, in one allocation.
#[tactic(auto, using(pickle_cells::proofs::ItemLaws::lengths))]
pub fn write_group(alloc: Global, group: &GroupInfo) -> Result<Vec<u8>, AllocError>
    ensures written { IfOk result (λ v. v.items ≡ group_bytes group.now) }
    ensures again { IfOk result (λ v. IsGroup group.now v.items) }
    ensures short { IfOk result (λ v. length v.items ≤ 65534) }
{
    let title = group.title.units();
    let colour = group.colour;
    let high = group.high;
    let low = group.low;
    let rest = group.rest.as_slice();
    let size = 20 + string_item_size(2 * title.len()) + rest.len();
    let mut writer = PickleWriter::with_capacity(alloc, size)?;
    writer.put_uint64(high)?;
    writer.put_uint64(low)?;
    writer.put_units(title)?;
    writer.put_uint32(colour)?;
    writer.put_rest(rest)?;
    Ok(writer.finish())
}

#[tactic(auto, unfolding(pickle_cells::specs::PickleLayout::pickled_at, pickle_cells::specs::PickleLayout::items_at, pickle_cells::specs::PickleLayout::item_at))]
fn group_parts(payload: &[u8]) -> Result<GroupRef<'_>, PickleFault>
    requires { length payload.now ≤ 65534 }
    ensures { IsReadAs group_ref_parts result (pickled_at group_kinds payload.now) }
{
    let mut cursor = Cursor::new(payload)?;
    let high = cursor.uint64()?;
    let low = cursor.uint64()?;
    let title = cursor.units()?;
    let colour = cursor.uint32()?;
    Ok(GroupRef {
        high,
        low,
        title,
        colour,
        rest: cursor.rest(),
    })
}
