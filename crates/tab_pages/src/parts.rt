//! Pages as they stand in parts, one part behind the other.
ghost use Rattle.std.specs.Prelude.{ℤ, pos, true, ◌≡◌, ◌<◌, ◌≤◌, ◌≤ℤ◌, ◌<ℤ◌, ◌^◌, ◌-◌, length, map, slice_get, drop, Some, IsTrue, IfOk, OnOk, OnErr};
ghost use Rattle.std.specs.Ordering.{int_cmp};
ghost use Rattle.std.specs.BTreeMap.{insert_entry};
ghost use Rattle.tab_pages.specs.PageLists.{IsRising, prune_back, pruned};
ghost use Rattle.tab_pages.specs.PartLists.{IsInFirst, all_before, joined, part_of};
ghost use Rattle.tab_pages.specs.Positions.{first_from};

use crate::part::Part;
use navigation_entry::Navigation;
use std::alloc::{AllocError, Global};

// A part with so many pages, and one more for each part, is full.
const FULL: usize = 256;

/// How many pages there are: no more than indices.
pub(crate) fn count(parts: &[Part]) -> usize
    requires { IsRising (pos 0) (joined parts.now) }
    ensures count { result ≡ length (joined parts.now) }
    ensures small { result ≤ 2 ^ 31 }
{
    let mut count = 0;
    for part in parts {
        count += part.len();
    }
    count
}

/// The parts from the one on in which a place among the pages is, and the place in it; no parts where it is behind all.
pub(crate) fn seek(parts: &[Part], place: usize) -> (&[Part], usize)
    ensures same { drop result.1 (joined result.0.now) ≡ drop place (joined parts.now) }
    ensures within { IsInFirst result.1 result.0.now }
{
    let mut left = parts;
    let mut skip = place;
    while let Some((part, others)) = left.split_first() {
        if skip < part.len() {
            return (left, skip);
        }
        skip -= part.len();
        left = others;
    }
    (left, skip)
}

/// The page at a place, with its index.
pub(crate) fn at(parts: &[Part], place: usize) -> (i32, &Navigation)
    requires { place < length (joined parts.now) }
    ensures { slice_get (joined parts.now) place ≡ Some (result.0, result.1.now) }
{
    let (parts, place) = seek(parts, place);
    parts[0].at(place)
}

/// The position of the first page from the index on, else the last one.
pub(crate) fn first_from(parts: &[Part], index: i32) -> u32
    requires { IsRising (pos 0) (joined parts.now) }
    ensures { result ≡ first_from index (map (λ page. page.0) (joined parts.now)) }
{
    let count = count(parts);
    let before = count_before(parts, index);
    if before < count {
        return before as u32;
    }
    count.saturating_sub(1) as u32
}

// How many pages stand before the index.
fn count_before(parts: &[Part], index: i32) -> usize
    requires { length (joined parts.now) ≤ 2 ^ 31 }
    ensures { result ≡ length (prune_back index (joined parts.now)) }
{
    let mut count = 0;
    for part in parts {
        count += part.count_before(index);
    }
    count
}

// The part in which the index stands or belongs. It takes one look where that is the last one.
fn part_of(parts: &[Part], index: i32) -> usize
    requires some { 0 < length parts.now }
    requires rising { IsRising (pos 0) (joined parts.now) }
    ensures place { result ≡ part_of index parts.now }
    ensures within { result < length parts.now }
{
    if last_begins_by(parts, index) {
        return parts.len() - 1;
    }
    find_part(parts, index)
}

// Whether the last part begins no later than at the index, so that all others end before it.
fn last_begins_by(parts: &[Part], index: i32) -> bool
    requires { IsRising (pos 0) (joined parts.now) }
    ensures { IsTrue result → part_of index parts.now ≡ length parts.now - 1 }
{
    match parts.last() {
        Some(last) => last.begins_by(index),
        None => false,
    }
}

fn find_part(parts: &[Part], index: i32) -> usize
    requires { 0 < length parts.now }
    ensures place { result ≡ part_of index parts.now }
    ensures within { result < length parts.now }
{
    let mut number = 0;
    while number + 1 < parts.len() && parts[number].ends_before(index) {
        number += 1;
    }
    number
}

// Whether all pages stand before the index, as far as the last part tells it.
fn end_before(parts: &[Part], index: i32) -> bool
    requires { IsRising (pos 0) (joined parts.now) }
    ensures { IsTrue result → all_before index (joined parts.now) ≡ true }
{
    let Some(last) = parts.last() else {
        return true;
    };
    if last.has_page() {
        return last.ends_before(index);
    }
    false
}

// A full part is split, or an empty one put behind it, and where there is no part an empty one is made.
fn make_room(parts: &mut Vec<Part>, index: i32) -> Result<(), AllocError>
    requires { IsRising (pos 0) (joined parts.old.items) }
    ensures same { joined parts.new.items ≡ joined parts.old.items }
    ensures some { OnOk result (0 < length parts.new.items) }
{
    let alloc = *parts.allocator();
    if parts.is_empty() {
        parts.push(Part::new(alloc))?;
        return Ok(());
    }
    let number = part_of(parts.as_slice(), index);
    if parts[number].len() < FULL.saturating_add(parts.len()) {
        return Ok(());
    }
    if parts[number].ends_before(index) {
        parts.push(Part::new(alloc))?;
        return Ok(());
    }
    split(parts, number)
}

// The later half of a part's pages becomes the next part.
fn split(parts: &mut Vec<Part>, number: usize) -> Result<(), AllocError>
    requires { number < length parts.old.items }
    ensures same { joined parts.new.items ≡ joined parts.old.items }
    ensures some { 0 < length parts.new.items }
{
    let alloc = *parts.allocator();
    parts.insert(number + 1, Part::new(alloc))?;
    let later = parts[number].split()?;
    parts[number + 1] = later;
    Ok(())
}

/// The page at the index, replaced or put in by its index.
pub(crate) fn put(
    parts: &mut Vec<Part>,
    index: i32,
    navigation: Navigation,
) -> Result<(), AllocError>
    requires index { pos 0 ≤ℤ index }
    requires rising { IsRising (pos 0) (joined parts.old.items) }
    ensures ok { OnOk result
        (joined parts.new.items ≡ insert_entry int_cmp (joined parts.old.items) index navigation) }
    ensures err { OnErr result (joined parts.new.items ≡ joined parts.old.items) }
{
    make_room(parts, index)?;
    let number = part_of(parts.as_slice(), index);
    parts[number].put(index, navigation)
}

/// Pages from the index on go.
pub(crate) fn prune_back(parts: &mut Vec<Part>, index: i32)
    requires { IsRising (pos 0) (joined parts.old.items) }
    ensures { joined parts.new.items ≡ prune_back index (joined parts.old.items) }
{
    if end_before(parts.as_slice(), index) {
        return;
    }
    prune_back_all(parts.as_mut_slice(), index);
    parts.retain(|part| part.has_page());
}

fn prune_back_all(parts: &mut [Part], index: i32)
    ensures { parts.new ≡ map (prune_back index) parts.old }
{
    for part in parts.iter_mut() {
        part.prune_back(index);
    }
}

/// So many indices from the first on go, and later ones fall by the count.
pub(crate) fn prune(parts: &mut Vec<Part>, first: i32, count: i32)
    requires rising { IsRising (pos 0) (joined parts.old.items) }
    requires first { pos 0 ≤ℤ first }
    requires count { pos 0 <ℤ count }
    ensures { joined parts.new.items ≡ pruned first count (joined parts.old.items) }
{
    if end_before(parts.as_slice(), first) {
        return;
    }
    prune_all(parts.as_mut_slice(), first, count);
    parts.retain(|part| part.has_page());
}

fn prune_all(parts: &mut [Part], first: i32, count: i32)
    requires first { pos 0 ≤ℤ first }
    requires count { pos 0 <ℤ count }
    ensures { parts.new ≡ map (pruned first count) parts.old }
{
    for part in parts.iter_mut() {
        part.prune(first, count);
    }
}

/// The pages without their indices, in memory of their own.
pub(crate) fn navigations(alloc: Global, parts: &[Part]) -> Result<Vec<Navigation>, AllocError>
    ensures { IfOk result (λ v. v.items ≡ map (λ page. page.1) (joined parts.now)) }
{
    let mut copied = Vec::new(alloc);
    for part in parts {
        part.push_navigations(&mut copied)?;
    }
    Ok(copied)
}

/// The same parts, in memory of their own.
pub(crate) fn copy(alloc: Global, parts: &[Part]) -> Result<Vec<Part>, AllocError>
    ensures { IfOk result (λ v. v.items ≡ parts.now) }
{
    let mut copied = Vec::with_capacity(alloc, parts.len())?;
    for part in parts {
        copied.push(part.copy()?)?;
    }
    Ok(copied)
}
