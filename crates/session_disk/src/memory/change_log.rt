//! What a disk in memory writes down of each change, so that the change can be undone.
ghost use Rattle.std.specs.Prelude.{◌≡◌, ◌<◌, [], ◌∷◌, ◌++◌, vec_len, vec_capacity};

use crate::memory::file_list::DiskFile;

/// A change, with what its undoing needs beyond the moment after it.
#[derive(Drop)]
pub(crate) enum Undo {
    /// The file under this stamp was made.
    Created(u64),
    /// So many bytes were added to the file under this stamp.
    Appended(u64, usize),
    /// The file under this stamp was synced, and so many of its bytes were safe before.
    Synced(u64, u64),
    /// The file that is the last removed one was removed, and this was whether its name was settled.
    Removed(bool),
    /// All names and removals were settled: the stamps whose names weren't, and the files that were removed.
    Settled(Vec<u64>, Vec<DiskFile>),
    /// Another number was told, and this one before it.
    Told(u64),
}

/// Adds to a log that has room.
pub(crate) fn write_down(log: &mut Vec<Undo>, change: Undo)
    requires { vec_len log.old < vec_capacity log.old }
    ensures { log.new.items ≡ log.old.items ++ change ∷ [] }
{
    match log.push(change) {
        Ok(()) => {}
        Err(_) => unreachable!(),
    }
}
