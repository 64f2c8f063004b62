//! The files of a disk in memory, in a list by rising stamp, and the changes that its calls make to that list.
//! A look-up scans the list from its start: a disk holds few files.
ghost use Rattle.std.specs.Prelude.{◌≡◌, ◌==◌, ℕ, true, ◌+◌, ◌<◌, ◌≤◌, ◌^◌, [], ◌∷◌, ◌++◌, map, filter, not, length, max, Some, None, option_map, option_copied, is_some, IfOk, OnOk, OnErr, IfSome, IsSome, IsNone, slice_index_or, vec_len, vec_capacity};
ghost use Rattle.std.specs.List.{find};
ghost use Rattle.session_disk.specs.declared.memory.file_list.DiskFile.{DiskFile};
ghost use Rattle.session_disk.specs.Moments.{with_file, with_changed, lengthened, secured, safe_file, settled_file, IsNewestBelow};
ghost use Rattle.session_disk.specs.DiskFiles.{standing_of, standing_in, is_bounded, is_listed, place_of, end_of, unsettled_stamps};

use crate::disk::LONGEST;
use item_list::Items;
use std::alloc::{AllocError, Global};

/// A file that stands, or stood before it was removed.
#[derive(Drop)]
pub struct DiskFile {
    pub stamp: u64,
    /// In one vector that doubles as it grows.
    pub bytes: Items<u8>,
    /// How many of its first bytes a crash keeps.
    pub synced: u64,
    /// Whether a crash keeps its name.
    pub settled: bool,
}

/// How many files at the start have stamps below a bound.
pub(crate) fn place_of(files: &[DiskFile], stamp: u64) -> usize
    ensures value { result ≡ place_of stamp files.now }
    ensures bound { result ≤ length files.now }
{
    for (i, file) in files.iter().enumerate() {
        if file.stamp >= stamp {
            return i;
        }
    }
    files.len()
}

pub(crate) fn insert(files: &mut Vec<DiskFile>, file: DiskFile) -> Result<(), AllocError>
    requires listed { is_listed files.old.items ≡ true }
    requires stamp { file.stamp < 2 ^ 63 }
    requires bytes { length file.bytes ≤ 2 ^ 62 }
    requires absent { IsNone (standing_in files.old.items file.stamp) }
    ensures listed { is_listed files.new.items ≡ true }
    ensures ok { OnOk result
        (standing_in files.new.items ≡ with_file file.stamp (Some (standing_of file)) (standing_in files.old.items)) }
    ensures err { OnErr result (files.new.items ≡ files.old.items) }
{
    let place = place_of(files, file.stamp);
    files.insert(place, file)?;
    Ok(())
}

/// Adds a file whose bytes and name are safe.
pub(crate) fn insert_safe(
    files: &mut Vec<DiskFile>,
    stamp: u64,
    bytes: &[u8],
) -> Result<(), AllocError>
    requires listed { is_listed files.old.items ≡ true }
    requires stamp { stamp < 2 ^ 63 }
    requires bytes { length bytes.now ≤ 2 ^ 62 }
    requires absent { IsNone (standing_in files.old.items stamp) }
    ensures listed { is_listed files.new.items ≡ true }
    ensures ok { OnOk result
        (standing_in files.new.items ≡ with_file stamp (Some (safe_file bytes.now)) (standing_in files.old.items)) }
    ensures err { OnErr result (files.new.items ≡ files.old.items) }
{
    let synced = bytes.len() as u64;
    let bytes = Items::from_slice(*files.allocator(), bytes)?;
    insert(
        files,
        DiskFile {
            stamp,
            bytes,
            synced,
            settled: true,
        },
    )
}

/// The greatest stamp, of those below the bound where one is given.
pub(crate) fn newest_below(files: &[DiskFile], below: Option<u64>) -> Option<u64>
    requires listed { is_listed files.now ≡ true }
    ensures newest { IsNewestBelow (standing_in files.now) below result }
    ensures in_range { IfSome result (λ stamp. stamp < 2 ^ 63) }
    ensures within { IfSome result (λ stamp. IfSome below (λ bound. stamp < bound)) }
{
    let end = end_of(files, below);
    if end == 0 {
        return None;
    }
    Some(files[end - 1].stamp)
}

fn end_of(files: &[DiskFile], below: Option<u64>) -> usize
    ensures value { result ≡ end_of below files.now }
    ensures bound { result ≤ length files.now }
{
    match below {
        None => files.len(),
        Some(bound) => place_of(files, bound),
    }
}

/// The file under a stamp, where one stands.
pub(crate) fn get(files: &[DiskFile], stamp: u64) -> Option<&DiskFile>
    ensures { option_copied result ≡ find (λ file. file.stamp == stamp) files.now }
{
    files.iter().find(|file| file.stamp == stamp)
}

/// Whether a file stands under a stamp.
pub(crate) fn has(files: &[DiskFile], stamp: u64) -> bool
    ensures { result ≡ is_some (standing_in files.now stamp) }
{
    get(files, stamp).is_some()
}

/// The place of a file that stands.
fn find_place(files: &[DiskFile], stamp: u64) -> usize
    requires listed { is_listed files.now ≡ true }
    requires stands { IsSome (standing_in files.now stamp) }
    ensures bound { result < length files.now }
    ensures found { (d : DiskFile) → (slice_index_or files.now result d).stamp ≡ stamp }
{
    place_of(files, stamp)
}

/// The file under a stamp.
pub(crate) fn find(files: &[DiskFile], stamp: u64) -> &DiskFile
    requires listed { is_listed files.now ≡ true }
    requires stands { IsSome (standing_in files.now stamp) }
    ensures found { standing_in files.now stamp ≡ Some (standing_of result.now) }
    ensures bound { length result.now.bytes ≤ 2 ^ 62 }
{
    let place = find_place(files, stamp);
    &files[place]
}

/// Adds bytes at the end of a file. A length past the longest is refused as want of memory.
pub(crate) fn append(files: &mut Vec<DiskFile>, stamp: u64, more: &[u8]) -> Result<(), AllocError>
    requires listed { is_listed files.old.items ≡ true }
    requires stands { IsSome (standing_in files.old.items stamp) }
    ensures listed { is_listed files.new.items ≡ true }
    ensures ok { OnOk result
        (standing_in files.new.items ≡ with_changed (lengthened more.now) stamp (standing_in files.old.items)) }
    ensures err { OnErr result (files.new.items ≡ files.old.items) }
{
    let place = find_place(files, stamp);
    let file = &mut files[place];
    append_at(file, more)
}

fn append_at(file: &mut DiskFile, more: &[u8]) -> Result<(), AllocError>
    ensures ok { OnOk result (file.new ≡ record file.old { bytes = file.old.bytes ++ more.now }) }
    ensures fits { length file.old.bytes ≤ 2 ^ 62 → length file.new.bytes ≤ 2 ^ 62 }
    ensures stamp { file.new.stamp ≡ file.old.stamp }
    ensures err { OnErr result (file.new ≡ file.old) }
{
    let free = LONGEST.saturating_sub(file.bytes.as_slice().len() as u64);
    if more.len() as u64 > free {
        return Err(AllocError);
    }
    file.bytes.extend_from_slice(more)
}

/// Makes the first bytes of a file safe, up to a length, and answers how many were before.
pub(crate) fn sync(files: &mut Vec<DiskFile>, stamp: u64, reached: u64) -> u64
    requires listed { is_listed files.old.items ≡ true }
    requires stands { IsSome (standing_in files.old.items stamp) }
    ensures listed { is_listed files.new.items ≡ true }
    ensures files { standing_in files.new.items ≡ with_changed (secured reached) stamp (standing_in files.old.items) }
    ensures before { IfSome (standing_in files.old.items stamp) (λ file. result ≡ file.synced) }
{
    let place = find_place(files, stamp);
    let file = &mut files[place];
    let before = file.synced;
    file.synced = before.max(reached);
    before
}

/// Takes a file out of the list.
pub(crate) fn take(files: &mut Vec<DiskFile>, stamp: u64) -> DiskFile
    requires listed { is_listed files.old.items ≡ true }
    requires stands { IsSome (standing_in files.old.items stamp) }
    ensures listed { is_listed files.new.items ≡ true }
    ensures files { standing_in files.new.items ≡ with_file stamp None (standing_in files.old.items) }
    ensures stamp { result.stamp ≡ stamp }
    ensures taken { standing_in files.old.items stamp ≡ Some (standing_of result) }
    ensures bounded { is_bounded result ≡ true }
{
    let place = find_place(files, stamp);
    files.remove(place)
}

pub(crate) fn settle_all(files: &mut Vec<DiskFile>)
    requires listed { is_listed files.old.items ≡ true }
    ensures listed { is_listed files.new.items ≡ true }
    ensures files { (stamp : ℕ) →
        standing_in files.new.items stamp ≡ option_map settled_file (standing_in files.old.items stamp) }
{
    for file in files.iter_mut() {
        file.settled = true;
    }
}

/// The stamps of the files whose names aren't settled.
pub(crate) fn unsettled_stamps(alloc: Global, files: &[DiskFile]) -> Result<Vec<u64>, AllocError>
    ensures { IfOk result (λ stamps. stamps.items ≡ unsettled_stamps files.now) }
{
    let mut stamps = Vec::new(alloc);
    for file in files {
        if !file.settled {
            stamps.push(file.stamp)?;
        }
    }
    Ok(stamps)
}

/// Adds a file at the end of a list that has room.
pub(crate) fn push(files: &mut Vec<DiskFile>, file: DiskFile)
    requires { vec_len files.old < vec_capacity files.old }
    ensures { files.new.items ≡ files.old.items ++ file ∷ [] }
{
    match files.push(file) {
        Ok(()) => {}
        Err(_) => unreachable!(),
    }
}
