//! The words of a payload that is a pickle: its items and the length of its tail, or why it doesn't read.
ghost use Rattle.std.specs.Prelude.{◌≡◌, ◌≤◌, ◌++◌, length, OnOk};
ghost use Rattle.pickle_cells.specs.PickleLayout.{item_at, items_at, pickled_at};
ghost use Rattle.payload_rows.specs.PayloadLayout.{PickledShape};
ghost use Rattle.payload_words.specs.Walk.{SaysItem, SaysItems, SaysPickle};
ghost use Rattle.payload_words.specs.Words.{shape_words};
ghost use Rattle.payload_words.specs.declared.pickled.Stop.TheVariants as stop;

use crate::fault::put_pickle_fault;
use crate::fields::{put_flag, put_length, put_number, put_signed, put_text, put_unit_pairs};
use pickle_cells::{Cursor, ItemKind, PickleFault};
use std::alloc::AllocError;

/// Why a walk over the items of a pickle stops.
pub(crate) enum Stop {
    /// An item, or the size field, doesn't read.
    Fault(PickleFault),
    Memory,
}

impl From<PickleFault> for Stop {
    ghost from_gives = { λ fault s. s ≡ stop.Fault fault };

    fn from(fault: PickleFault) -> Self {
        Stop::Fault(fault)
    }
}

impl From<AllocError> for Stop {
    ghost from_gives = { λ _ s. s ≡ stop.Memory };

    fn from(_: AllocError) -> Self {
        Stop::Memory
    }
}

/// The words of the items of these kinds and of the tail, or those of the first fault alone: the words of the items
/// before it are taken back.
pub(crate) fn put_pickled(
    kinds: &[ItemKind],
    payload: &[u8],
    out: &mut Vec<u8>,
) -> Result<(), AllocError>
    requires { length payload.now ≤ 65534 }
    ensures { OnOk result (out.new.items ≡ out.old.items ++ shape_words (PickledShape kinds.now) payload.now) }
{
    let start = out.len();
    match put_pickle(kinds, payload, out) {
        Ok(()) => Ok(()),
        Err(Stop::Fault(fault)) => {
            out.truncate(start);
            put_pickle_fault(fault, out)
        }
        Err(Stop::Memory) => Err(AllocError),
    }
}

#[tactic(auto, unfolding(pickle_cells::specs::PickleLayout::pickled_at))]
fn put_pickle(kinds: &[ItemKind], payload: &[u8], out: &mut Vec<u8>) -> Result<(), Stop>
    requires { length payload.now ≤ 65534 }
    ensures { SaysPickle out.old.items out.new.items (pickled_at kinds.now payload.now) result }
{
    let mut cursor = Cursor::new(payload)?;
    put_items(kinds, &mut cursor, out)?;
    put_length(cursor.rest(), out)?;
    Ok(())
}

#[tactic(auto, unfolding(pickle_cells::specs::PickleLayout::items_at))]
fn put_items<'a>(kinds: &[ItemKind], cursor: &mut Cursor<'a>, out: &mut Vec<u8>) -> Result<(), Stop>
    ensures { SaysItems out.old.items out.new.items (items_at kinds.now cursor.old) cursor.new result }
{
    match kinds {
        [] => Ok(()),
        [kind, others @ ..] => {
            put_item(*kind, cursor, out)?;
            put_items(others, cursor, out)
        }
    }
}

#[tactic(auto, unfolding(pickle_cells::specs::PickleLayout::item_at, crate::specs::FieldWords::item_word))]
fn put_item<'a>(kind: ItemKind, cursor: &mut Cursor<'a>, out: &mut Vec<u8>) -> Result<(), Stop>
    ensures { SaysItem out.old.items out.new.items (item_at kind cursor.old) cursor.new result }
{
    match kind {
        ItemKind::Int => {
            let number = cursor.int()?;
            put_signed(number as i64, out)?;
        }
        ItemKind::Int64 => {
            let number = cursor.int64()?;
            put_signed(number, out)?;
        }
        ItemKind::Uint32 => {
            let number = cursor.uint32()?;
            put_number(number as u64, out)?;
        }
        ItemKind::Uint64 => {
            let number = cursor.uint64()?;
            put_number(number, out)?;
        }
        ItemKind::Flag => {
            let flag = cursor.flag()?;
            put_flag(flag, out)?;
        }
        ItemKind::Text => {
            let text = cursor.bytes()?;
            put_text(text, out)?;
        }
        ItemKind::Units => {
            let pairs = cursor.units()?;
            put_unit_pairs(pairs, out)?;
        }
    }
    Ok(())
}
