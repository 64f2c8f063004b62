//! Payloads that are a pickle, one reader a shape.
ghost use Rattle.std.specs.Prelude.{◌≡◌, ◌≤◌, [], ◌∷◌, length, IfOk};
ghost use Rattle.pickle_cells.specs.PickleLayout.{Int, Text, IsReadAs, pickled_at};
ghost use Rattle.payload_rows.specs.Shapes.{int_rest_kinds, int_text_kinds, int_two_texts_kinds};
ghost use Rattle.payload_rows.specs.Contents.{IsRead};
ghost use Rattle.payload_rows.specs.declared.shape.Shape.TheVariants.{IntRest, IntText, IntTwoTexts, WindowEntry, Navigation as NavigationShape, Group};

use crate::fields::Fields;
use crate::window_entry::read_window_entry;
use navigation_entry::{read_group, read_navigation};
use pickle_cells::{Blob, Cursor, PickleFault};
use std::alloc::{AllocError, Global};

#[tactic(auto, using(crate::proofs::LayoutLaws::pickled_read))]
pub(crate) fn int_rest(alloc: Global, payload: &[u8]) -> Result<Option<Fields>, AllocError>
    requires { length payload.now ≤ 65534 }
    ensures { IfOk result (λ found. IsRead IntRest payload.now found) }
{
    let Ok((number, rest)) = int_rest_parts(payload) else {
        return Ok(None);
    };
    let rest = Blob::from_slice(alloc, rest)?;
    Ok(Some(Fields::IntRest(number, rest)))
}

#[tactic(auto, using(crate::proofs::LayoutLaws::pickled_read))]
pub(crate) fn int_text(alloc: Global, payload: &[u8]) -> Result<Option<Fields>, AllocError>
    requires { length payload.now ≤ 65534 }
    ensures { IfOk result (λ found. IsRead IntText payload.now found) }
{
    let Ok((number, text, tail)) = int_text_parts(payload) else {
        return Ok(None);
    };
    let text = Blob::from_slice(alloc, text)?;
    let tail = Blob::from_slice(alloc, tail)?;
    Ok(Some(Fields::IntText(number, text, tail)))
}

#[tactic(auto, using(crate::proofs::LayoutLaws::pickled_read))]
pub(crate) fn int_two_texts(alloc: Global, payload: &[u8]) -> Result<Option<Fields>, AllocError>
    requires { length payload.now ≤ 65534 }
    ensures { IfOk result (λ found. IsRead IntTwoTexts payload.now found) }
{
    let Ok((number, first, second, tail)) = int_two_texts_parts(payload) else {
        return Ok(None);
    };
    let first = Blob::from_slice(alloc, first)?;
    let second = Blob::from_slice(alloc, second)?;
    let tail = Blob::from_slice(alloc, tail)?;
    Ok(Some(Fields::IntTwoTexts(number, first, second, tail)))
}

#[tactic(auto, using(crate::proofs::LayoutLaws::pickled_read))]
pub(crate) fn window_entry(alloc: Global, payload: &[u8]) -> Result<Option<Fields>, AllocError>
    requires { length payload.now ≤ 65534 }
    ensures { IfOk result (λ found. IsRead WindowEntry payload.now found) }
{
    let Ok((entry, tail)) = read_window_entry(payload) else {
        return Ok(None);
    };
    let tail = Blob::from_slice(alloc, tail)?;
    Ok(Some(Fields::WindowEntry(entry, tail)))
}

#[tactic(auto, using(crate::proofs::PickledLaws::navigation_read))]
pub(crate) fn navigation(alloc: Global, payload: &[u8]) -> Result<Option<Fields>, AllocError>
    requires { length payload.now ≤ 65534 }
    ensures { IfOk result (λ found. IsRead NavigationShape payload.now found) }
{
    let Ok(parts) = read_navigation(payload) else {
        return Ok(None);
    };
    let navigation = parts.own(alloc)?;
    Ok(Some(Fields::Navigation(parts.tab, parts.index, navigation)))
}

#[tactic(auto, using(crate::proofs::PickledLaws::group_read))]
pub(crate) fn group(alloc: Global, payload: &[u8]) -> Result<Option<Fields>, AllocError>
    requires { length payload.now ≤ 65534 }
    ensures { IfOk result (λ found. IsRead Group payload.now found) }
{
    let Ok(parts) = read_group(payload) else {
        return Ok(None);
    };
    let group = parts.own(alloc)?;
    Ok(Some(Fields::Group(group)))
}

#[tactic(auto, unfolding(pickle_cells::specs::PickleLayout::pickled_at, pickle_cells::specs::PickleLayout::items_at, pickle_cells::specs::PickleLayout::item_at))]
fn int_rest_parts(payload: &[u8]) -> Result<(i32, &[u8]), PickleFault>
    requires { length payload.now ≤ 65534 }
    ensures { IsReadAs (λ x. (Int x.0 ∷ [], x.1.now)) result (pickled_at int_rest_kinds payload.now) }
{
    let mut cursor = Cursor::new(payload)?;
    let number = cursor.int()?;
    Ok((number, cursor.rest()))
}

#[tactic(auto, unfolding(pickle_cells::specs::PickleLayout::pickled_at, pickle_cells::specs::PickleLayout::items_at, pickle_cells::specs::PickleLayout::item_at))]
fn int_text_parts(payload: &[u8]) -> Result<(i32, &[u8], &[u8]), PickleFault>
    requires { length payload.now ≤ 65534 }
    ensures { IsReadAs (λ x. (Int x.0 ∷ Text x.1.now ∷ [], x.2.now)) result (pickled_at int_text_kinds payload.now) }
{
    let mut cursor = Cursor::new(payload)?;
    let number = cursor.int()?;
    let text = cursor.bytes()?;
    Ok((number, text, cursor.rest()))
}

#[tactic(auto, unfolding(pickle_cells::specs::PickleLayout::pickled_at, pickle_cells::specs::PickleLayout::items_at, pickle_cells::specs::PickleLayout::item_at))]
fn int_two_texts_parts(payload: &[u8]) -> Result<(i32, &[u8], &[u8], &[u8]), PickleFault>
    requires { length payload.now ≤ 65534 }
    ensures { IsReadAs (λ x. (Int x.0 ∷ Text x.1.now ∷ Text x.2.now ∷ [], x.3.now)) result
        (pickled_at int_two_texts_kinds payload.now) }
{
    let mut cursor = Cursor::new(payload)?;
    let number = cursor.int()?;
    let first = cursor.bytes()?;
    let second = cursor.bytes()?;
    Ok((number, first, second, cursor.rest()))
}
