//! Why a payload isn't of a shape, by a walk over the kinds of its fields.
ghost use Rattle.std.specs.Prelude.{◌≡◌, ◌*◌, ◌≤◌, length, Some};
ghost use Rattle.pickle_cells.specs.PickleLayout.{item_at, items_at, fault_of, pickled_fault};
ghost use Rattle.payload_rows.specs.FixedReading.{field_width, width};
ghost use Rattle.payload_rows.specs.PayloadLayout.{FixedShape, PickledShape};
ghost use Rattle.payload_rows.specs.Faults.{shape_fault, Passes};

use crate::fault::PayloadFault;
use crate::kind::FieldKind;
use pickle_cells::{Cursor, ItemKind, PickleFault};

/// The fault of a payload that isn't as long as the fields are together.
pub(crate) fn of_fixed(kinds: &[FieldKind], payload: &[u8]) -> Option<PayloadFault>
    requires few { length kinds.now ≤ 8 }
    requires short { length payload.now ≤ 65534 }
    ensures { result ≡ shape_fault (Some (FixedShape kinds.now)) payload.now }
{
    let wanted = width(kinds);
    let present = payload.len() as u32;
    if present == wanted {
        return None;
    }
    Some(PayloadFault::Length { wanted, present })
}

/// The fault of a payload whose size field or an item of which doesn't read.
pub(crate) fn of_pickled(kinds: &[ItemKind], payload: &[u8]) -> Option<PayloadFault>
    requires { length payload.now ≤ 65534 }
    ensures { result ≡ shape_fault (Some (PickledShape kinds.now)) payload.now }
{
    match passed(kinds, payload) {
        Ok(()) => None,
        Err(fault) => Some(PayloadFault::Pickle(fault)),
    }
}

fn passed(kinds: &[ItemKind], payload: &[u8]) -> Result<(), PickleFault>
    requires { length payload.now ≤ 65534 }
    ensures { fault_of result ≡ pickled_fault kinds.now payload.now }
{
    let mut cursor = Cursor::new(payload)?;
    pass_items(kinds, &mut cursor)
}

#[tactic(auto, unfolding(pickle_cells::specs::PickleLayout::items_at))]
fn pass_items<'a>(kinds: &[ItemKind], cursor: &mut Cursor<'a>) -> Result<(), PickleFault>
    ensures { Passes (items_at kinds.now cursor.old) cursor.new result }
{
    match kinds {
        [] => Ok(()),
        [kind, others @ ..] => {
            pass_item(*kind, cursor)?;
            pass_items(others, cursor)
        }
    }
}

#[tactic(auto, unfolding(pickle_cells::specs::PickleLayout::item_at))]
fn pass_item<'a>(kind: ItemKind, cursor: &mut Cursor<'a>) -> Result<(), PickleFault>
    ensures { Passes (item_at kind cursor.old) cursor.new result }
{
    match kind {
        ItemKind::Int => {
            cursor.int()?;
            Ok(())
        }
        ItemKind::Int64 => {
            cursor.int64()?;
            Ok(())
        }
        ItemKind::Uint32 => {
            cursor.uint32()?;
            Ok(())
        }
        ItemKind::Uint64 => {
            cursor.uint64()?;
            Ok(())
        }
        ItemKind::Flag => {
            cursor.flag()?;
            Ok(())
        }
        ItemKind::Text => {
            cursor.bytes()?;
            Ok(())
        }
        ItemKind::Units => {
            cursor.units()?;
            Ok(())
        }
    }
}

fn width(kinds: &[FieldKind]) -> u32
    requires { length kinds.now ≤ 8 }
    ensures exact { result ≡ width kinds.now }
    ensures small { result ≤ 256 * length kinds.now }
{
    match kinds {
        [] => 0,
        [kind, others @ ..] => kind.width() + width(others),
    }
}

impl FieldKind {
    fn width(self) -> u32
        ensures exact { result ≡ field_width self }
        ensures small { result ≤ 256 }
    {
        match self {
            FieldKind::Int => 4,
            FieldKind::Int64 | FieldKind::Uint64 => 8,
            FieldKind::Flag => 1,
            FieldKind::Free(bytes) => bytes as u32,
        }
    }
}
