//! Pages as they stand in a vector, by rising index. Where a fall is given, each index is what is stored less the fall.
ghost use Rattle.std.specs.Prelude.{ℤ, ◌≡◌, ◌≢◌, ◌<◌, ◌≤◌, ◌≤ℤ◌, ◌<ℤ◌, ◌+ℤ◌, ◌-ℤ◌, ◌++◌, FitsSigned, pos, negsuc, int_le, int_lt, map, length, IfOk, OnOk, OnErr, IsTrue, IsFalse, slice_index_or};
ghost use Rattle.std.specs.Int.{w32};
ghost use Rattle.std.specs.Ordering.{int_cmp};
ghost use Rattle.std.specs.BTreeMap.{insert_entry};
ghost use Rattle.navigation_entry.specs.declared.navigation.Navigation.{Navigation};
ghost use Rattle.tab_pages.specs.PageLists.{IsRising, is_pruned, lowered, place_of, prune_back, pruned, shifted};
ghost use Rattle.tab_pages.specs.PartLists.{all_before, begins_by};

use navigation_entry::Navigation;
use std::alloc::{AllocError, Global};

/// A page behind its index.
pub type Page = (i32, Navigation);

/// How many pages stand before an index.
pub(crate) fn place_of(pages: &[Page], index: i32) -> usize
    requires { IsRising (pos 0) pages.now }
    ensures place { result ≡ place_of index pages.now }
    ensures within { result ≤ length pages.now }
{
    pages.partition_point(|page| page.0 < index)
}

// Whether the page in a place, where there is one, has the index.
fn has(pages: &[Page], place: usize, index: i32) -> bool
    ensures yes { IsTrue result →
        (place < length pages.now) × ((d : ℤ × Navigation) → (slice_index_or pages.now place d).0 ≡ index) }
    ensures no { IsFalse result → place < length pages.now → (d : ℤ × Navigation) →
        (slice_index_or pages.now place d).0 ≢ index }
{
    if place < pages.len() {
        return pages[place].0 == index;
    }
    false
}

/// The page at the index, replaced or put in by its index.
pub(crate) fn put(
    pages: &mut Vec<Page>,
    index: i32,
    navigation: Navigation,
) -> Result<(), AllocError>
    requires { IsRising (pos 0) pages.old.items }
    ensures ok { OnOk result (pages.new.items ≡ insert_entry int_cmp pages.old.items index navigation) }
    ensures err { OnErr result (pages.new.items ≡ pages.old.items) }
{
    let place = place_of(pages.as_slice(), index);
    if has(pages.as_slice(), place, index) {
        pages[place] = (index, navigation);
        return Ok(());
    }
    pages.insert(place, (index, navigation))?;
    Ok(())
}

/// Pages from the index on go.
pub(crate) fn prune_back(pages: &mut Vec<Page>, index: i32)
    ensures { pages.new.items ≡ prune_back index pages.old.items }
{
    pages.retain(|page| page.0 < index);
}

/// So many indices from the first on go, and later ones fall by the count.
pub(crate) fn prune(pages: &mut Vec<Page>, first: i32, count: i32)
    requires first { pos 0 ≤ℤ first }
    requires count { pos 0 <ℤ count }
    ensures { pages.new.items ≡ pruned first count pages.old.items }
{
    pages.retain(|page| !is_pruned(first, count, page.0));
    lower_all(first, count, pages.as_mut_slice());
}

// Whether an index is among so many from a first one on.
fn is_pruned(first: i32, count: i32, index: i32) -> bool
    ensures { result ≡ is_pruned first count index }
{
    if index < first {
        return false;
    }
    i64::from(index) < i64::from(first) + i64::from(count)
}

fn lower(first: i32, count: i32, page: &mut Page)
    requires first { negsuc 0 ≤ℤ first }
    requires count { pos 0 <ℤ count }
    ensures { page.new ≡ lowered first count page.old }
{
    if first < page.0 {
        page.0 -= count;
    }
}

// Each index behind the first falls by the count.
fn lower_all(first: i32, count: i32, pages: &mut [Page])
    requires first { negsuc 0 ≤ℤ first }
    requires count { pos 0 <ℤ count }
    ensures { pages.new ≡ map (lowered first count) pages.old }
{
    for page in pages.iter_mut() {
        lower(first, count, page);
    }
}

/// The pages without their indices are added to others.
pub(crate) fn push_navigations(
    pages: &[Page],
    navigations: &mut Vec<Navigation>,
) -> Result<(), AllocError>
    ensures { OnOk result
        (navigations.new.items ≡ navigations.old.items ++ map (λ page. page.1) pages.now) }
{
    for page in pages {
        navigations.push(page.1.copy()?)?;
    }
    Ok(())
}

/// The same pages, in memory of their own.
pub(crate) fn copy(alloc: Global, pages: &[Page]) -> Result<Vec<Page>, AllocError>
    ensures { IfOk result (λ v. v.items ≡ pages.now) }
{
    let mut copied = Vec::with_capacity(alloc, pages.len())?;
    for page in pages {
        let navigation = page.1.copy()?;
        copied.push((page.0, navigation))?;
    }
    Ok(copied)
}

/// Whether all pages stand before an index, where their indices are lower than what is stored.
pub(crate) fn ends_before(pages: &[Page], fall: i32, index: i32) -> bool
    requires { IsRising fall pages.now }
    ensures { result ≡ all_before index (map (shifted fall) pages.now) }
{
    match pages.last() {
        Some(last) => is_before(last.0, fall, index),
        None => true,
    }
}

/// Whether there is a page, and the first one stands no later than at an index.
pub(crate) fn begins_by(pages: &[Page], fall: i32, index: i32) -> bool
    ensures { result ≡ begins_by index (map (shifted fall) pages.now) }
{
    match pages.first() {
        Some(first) => is_by(first.0, fall, index),
        None => false,
    }
}

/// How many pages stand before an index.
pub(crate) fn count_before(pages: &[Page], fall: i32, index: i32) -> usize
    requires { IsRising fall pages.now }
    ensures { result ≡ length (prune_back index (map (shifted fall) pages.now)) }
{
    pages.partition_point(|page| is_before(page.0, fall, index))
}

fn is_before(stored: i32, fall: i32, index: i32) -> bool
    ensures { result ≡ int_lt stored (index +ℤ fall) }
{
    i64::from(stored) < i64::from(index) + i64::from(fall)
}

fn is_by(stored: i32, fall: i32, index: i32) -> bool
    ensures { result ≡ int_le (stored -ℤ fall) index }
{
    i64::from(stored) <= i64::from(index) + i64::from(fall)
}

/// Whether all pages stand behind so many indices from the first on. There is a page then.
pub(crate) fn is_behind(pages: &[Page], fall: i32, first: i32, count: i32) -> bool
    requires fall { pos 0 ≤ℤ fall }
    requires rising { IsRising fall pages.now }
    requires first { pos 0 ≤ℤ first }
    requires count { pos 0 <ℤ count }
    ensures behind { IsTrue result → IsRising ((first +ℤ count) +ℤ fall) pages.now }
    ensures fits { IsTrue result → FitsSigned w32 (fall +ℤ count) }
{
    match pages.first() {
        Some(page) => is_at_least(fallen(page.0, fall), first, count),
        None => false,
    }
}

fn is_at_least(index: i32, first: i32, count: i32) -> bool
    requires index { pos 0 ≤ℤ index }
    requires first { pos 0 ≤ℤ first }
    requires count { pos 0 <ℤ count }
    ensures { IsTrue result → (first +ℤ count) ≤ℤ index }
{
    index - first >= count
}

/// What is stored of an index, less the fall.
pub(crate) fn fallen(stored: i32, fall: i32) -> i32
    requires fall { pos 0 ≤ℤ fall }
    requires stored { fall ≤ℤ stored }
    ensures { result ≡ stored -ℤ fall }
{
    stored - fall
}

/// What is stored becomes the index.
pub(crate) fn apply_fall(pages: &mut Vec<Page>, fall: i32)
    requires fall { pos 0 ≤ℤ fall }
    requires rising { IsRising fall pages.old.items }
    ensures { pages.new.items ≡ map (shifted fall) pages.old.items }
{
    if fall > 0 {
        lower_all(-1, fall, pages.as_mut_slice());
    }
}
