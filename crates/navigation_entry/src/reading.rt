//! Navigations read from payloads and written to them.
ghost use Rattle.std.specs.Prelude.{◌≡◌, ◌%◌, ◌<◌, ◌≤◌, ◌^◌, ℤ, List, length, IfOk, IsOkAnd, Ok};
ghost use Rattle.pickle_cells.specs.PickleLayout.{IsPickled, IsReadAs, pickled_at};
ghost use Rattle.navigation_entry.specs.declared.navigation.Navigation.{Navigation};
ghost use Rattle.navigation_entry.specs.Layouts.{navigation_items, navigation_kinds};
ghost use Rattle.navigation_entry.specs.Views.{IsNavigation, navigation_bytes, reference_items, reference_parts, Shows};

use crate::navigation::Navigation;
use crate::reference::NavigationRef;
use pickle_cells::{Cursor, PickleFault, PickleWriter, string_item_size};
use std::alloc::{AllocError, Global};

/// The navigation that a payload says, and its tab and index. The first field that doesn't read gives its fault. It
/// takes no memory, and touches each byte at most once.
pub fn read_navigation(payload: &[u8]) -> Result<NavigationRef<'_>, PickleFault>
    requires { length payload.now ≤ 65534 }
    ensures found { IfOk result (λ r. IsPickled (reference_items r) r.rest.now payload.now) }
    ensures only { (tab : ℤ) (index : ℤ) (n : Navigation) → IsNavigation tab index n payload.now →
        IsOkAnd result (λ r. (r.tab ≡ tab) × (r.index ≡ index) × Shows r n) }
    ensures exact { IsReadAs reference_parts result (pickled_at navigation_kinds payload.now) }
{
    parts(payload)
}

/// The payload that says a navigation of a tab at an index, in one allocation.
#[tactic(auto, using(pickle_cells::proofs::ItemLaws::lengths), unfolding(pickle_cells::specs::PickleLayout::pickled_bytes, pickle_cells::specs::PickleLayout::items_bytes, pickle_cells::specs::PickleLayout::item_bytes))]
pub fn write_navigation(
    alloc: Global,
    tab: i32,
    index: i32,
    navigation: &Navigation,
) -> Result<Vec<u8>, AllocError>
    ensures written { IfOk result (λ v. v.items ≡ navigation_bytes tab index navigation.now) }
    ensures again { IfOk result (λ v. IsNavigation tab index navigation.now v.items) }
    ensures short { IfOk result (λ v. length v.items ≤ 65534) }
{
    let url = navigation.url.as_slice();
    let title = navigation.title.units();
    let page_state = navigation.page_state.as_slice();
    let transition = navigation.transition;
    let rest = navigation.rest.as_slice();
    let size = 12
        + string_item_size(url.len())
        + string_item_size(2 * title.len())
        + string_item_size(page_state.len())
        + rest.len();
    let mut writer = PickleWriter::with_capacity(alloc, size)?;
    writer.put_int(tab)?;
    writer.put_int(index)?;
    writer.put_bytes(url)?;
    writer.put_units(title)?;
    writer.put_bytes(page_state)?;
    writer.put_int(transition)?;
    writer.put_rest(rest)?;
    Ok(writer.finish())
}

#[tactic(auto, unfolding(pickle_cells::specs::PickleLayout::pickled_at, pickle_cells::specs::PickleLayout::items_at, pickle_cells::specs::PickleLayout::item_at))]
fn parts(payload: &[u8]) -> Result<NavigationRef<'_>, PickleFault>
    requires { length payload.now ≤ 65534 }
    ensures { IsReadAs reference_parts result (pickled_at navigation_kinds payload.now) }
{
    let mut cursor = Cursor::new(payload)?;
    let tab = cursor.int()?;
    let index = cursor.int()?;
    let url = cursor.bytes()?;
    let title = cursor.units()?;
    let page_state = cursor.bytes()?;
    let transition = cursor.int()?;
    Ok(NavigationRef {
        tab,
        index,
        url,
        title,
        page_state,
        transition,
        rest: cursor.rest(),
    })
}
