//! What a crash leaves of the files of a disk in memory, where it is told which of them to keep, and how much of each.
ghost use Rattle.std.specs.Prelude.{◌≡◌, ◌==◌, ◌<◌, ◌≤◌, ◌^◌, ℕ, true, not, ◌||◌, length, map, reverse, option_map, option_copied, is_some, IfOk, IfSome, IfNone};
ghost use Rattle.std.specs.List.{find, list_all};
ghost use Rattle.session_disk.specs.Crashes.{IsKeepable, image_of, cut_to, kept_under, file_meant, resting};
ghost use Rattle.session_disk.specs.ChangeLog.{moment_of};
ghost use Rattle.session_disk.specs.DiskFiles.{is_listed, is_bounded, standing_in, remains_of};

use crate::memory::file_list::{self, DiskFile};
use std::alloc::{AllocError, Global};

/// A file that a crash leaves, by its stamp, and how many bytes of it, from its start.
#[derive(Clone, Copy, Debug)]
pub struct Keep {
    pub stamp: u64,
    pub bytes: u64,
}

/// The files of the list with their lengths, all safe. None where a crash can't leave just these.
pub(crate) fn files_left(
    alloc: Global,
    files: &[DiskFile],
    removed: &[DiskFile],
    keeps: &[Keep],
) -> Result<Option<Vec<DiskFile>>, AllocError>
    requires listed { is_listed files.now ≡ true }
    requires bounded { list_all is_bounded removed.now ≡ true }
    ensures keepable { IfOk result (λ left. IfSome left (λ _.
        IsKeepable (moment_of files.now removed.now 0 0) keeps.now)) }
    ensures listed { IfOk result (λ left. IfSome left (λ kept. is_listed kept.items ≡ true)) }
    ensures image { IfOk result (λ left. IfSome left (λ kept.
        standing_in kept.items ≡ (resting (image_of (moment_of files.now removed.now 0 0) keeps.now)).standing)) }
    ensures none { IfOk result (λ left. IfNone left (IsKeepable (moment_of files.now removed.now 0 0) keeps.now → ⊥)) }
{
    if !keeps_settled(files, keeps) {
        return Ok(None);
    }
    let mut left = Vec::new(alloc);
    for keep in keeps {
        if file_list::has(left.as_slice(), keep.stamp) {
            return Ok(None);
        }
        let Some(bytes) = cut(files, removed, *keep) else {
            return Ok(None);
        };
        file_list::insert_safe(&mut left, keep.stamp, bytes)?;
    }
    Ok(Some(left))
}

/// Whether no file whose name is settled is left out.
fn keeps_settled(files: &[DiskFile], keeps: &[Keep]) -> bool
    ensures { result ≡ list_all (λ file. not file.settled || is_some (kept_under file.stamp keeps.now)) files.now }
{
    files
        .iter()
        .all(|file| !file.settled || names(keeps, file.stamp))
}

fn names(keeps: &[Keep], stamp: u64) -> bool
    ensures { result ≡ is_some (kept_under stamp keeps.now) }
{
    for keep in keeps {
        if keep.stamp == stamp {
            return true;
        }
    }
    false
}

/// The file that a stamp means: the one that stands, and where none does, the one that was removed last.
fn file_meant<'a>(
    files: &'a [DiskFile],
    removed: &'a [DiskFile],
    stamp: u64,
) -> Option<&'a DiskFile>
    requires listed { is_listed files.now ≡ true }
    requires bounded { list_all is_bounded removed.now ≡ true }
    ensures value { option_map remains_of (option_copied result)
        ≡ file_meant (moment_of files.now removed.now 0 0) stamp }
    ensures bounded { IfSome result (λ file. is_bounded file.now ≡ true) }
    ensures stamp { IfSome result (λ file. file.now.stamp ≡ stamp) }
{
    match file_list::get(files, stamp) {
        Some(file) => Some(file),
        None => last_removed(removed, stamp),
    }
}

fn last_removed(removed: &[DiskFile], stamp: u64) -> Option<&DiskFile>
    ensures { option_copied result ≡ find (λ file. file.stamp == stamp) (reverse removed.now) }
{
    removed.iter().rev().find(|file| file.stamp == stamp)
}

/// What is left of the file that a stamp means, where a crash may cut it there.
fn cut<'a>(files: &'a [DiskFile], removed: &'a [DiskFile], keep: Keep) -> Option<&'a [u8]>
    requires listed { is_listed files.now ≡ true }
    requires bounded { list_all is_bounded removed.now ≡ true }
    ensures value { option_copied result
        ≡ cut_to keep.bytes (file_meant (moment_of files.now removed.now 0 0) keep.stamp) }
    ensures bounded { IfSome result (λ bytes. (keep.stamp < 2 ^ 63) × (length bytes.now ≤ 2 ^ 62)) }
{
    let file = file_meant(files, removed, keep.stamp)?;
    if keep.bytes < file.synced {
        return None;
    }
    let bytes = file.bytes.as_slice();
    if keep.bytes > bytes.len() as u64 {
        return None;
    }
    Some(&bytes[..keep.bytes as usize])
}
