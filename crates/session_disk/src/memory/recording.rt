//! The files of a disk in memory with a log of each change. The earlier moments follow from the present by
//! undoing the changes in turn, so that no moment is held twice.
ghost use Rattle.std.specs.Prelude.{◌≡◌, true, ◌<◌, ◌≤◌, ◌^◌, [], length, IfOk, OnOk, OnErr, IfSome, IfNone, IsSome, IsNone};
ghost use Rattle.std.specs.List.{list_all};
ghost use Rattle.session_disk.specs.DiskFiles.{is_listed, is_bounded};

use crate::disk::LONGEST;
use crate::memory::change_log::{Undo, write_down};
use crate::memory::crash::{self, Keep};
use crate::memory::file_list::{self, DiskFile};
use item_list::Items;
use std::alloc::{AllocError, Global};
use std::mem;

/// A refused change changes nothing.
#[derive(Drop)]
pub(crate) struct Recording {
    files: Vec<DiskFile>,
    removed: Vec<DiskFile>,
    told: u64,
    creates: u64,
    log: Vec<Undo>,
    ghost listed: { is_listed files.items ≡ true },
    ghost bounded: { list_all is_bounded removed.items ≡ true },
}

impl Recording {
    ghost use Rattle.session_disk.specs.Moments.{bytes_at, IsNewestBelow, after_create, after_append, after_sync, after_remove, after_settle, after_tell};
    ghost use Rattle.session_disk.specs.Histories.{after};
    ghost use Rattle.session_disk.specs.DiskFiles.{standing_in};
    ghost use Rattle.session_disk.specs.Crashes.{IsKeepable, image_of, resting};
    ghost use Rattle.session_disk.specs.Recordings.{history_of, empty_moment, with_safe_file};

    pub(crate) fn new(alloc: Global) -> Recording
        ensures { history_of result ≡ record { now = empty_moment; past = [] } }
    {
        Recording {
            files: Vec::new(alloc),
            removed: Vec::new(alloc),
            told: 0,
            creates: 0,
            log: Vec::new(alloc),
        }
    }

    pub(crate) fn allocator(&self) -> Global {
        *self.files.allocator()
    }

    pub(crate) fn files(&self) -> &[DiskFile]
        ensures listed { is_listed result.now ≡ true }
        ensures standing { (history_of self.now).now.standing ≡ standing_in result.now }
    {
        self.files.as_slice()
    }

    /// The greatest stamp, of those below the bound where one is given.
    pub(crate) fn newest_below(&self, below: Option<u64>) -> Option<u64>
        ensures newest { IsNewestBelow (history_of self.now).now.standing below result }
        ensures in_range { IfSome result (λ stamp. stamp < 2 ^ 63) }
        ensures within { IfSome result (λ stamp. IfSome below (λ bound. stamp < bound)) }
    {
        file_list::newest_below(self.files.as_slice(), below)
    }

    pub(crate) fn bytes(&self, stamp: u64) -> &[u8]
        requires { IsSome ((history_of self.now).now.standing stamp) }
        ensures value { result.now ≡ bytes_at stamp (history_of self.now).now }
        ensures bound { length result.now ≤ 2 ^ 62 }
    {
        let file = file_list::find(self.files.as_slice(), stamp);
        file.bytes.as_slice()
    }

    pub(crate) fn create(&mut self, stamp: u64) -> Result<(), AllocError>
        requires in_range { stamp < 2 ^ 63 }
        requires absent { IsNone ((history_of self.old).now.standing stamp) }
        ensures ok { OnOk result (history_of self.new ≡ after (after_create stamp) (history_of self.old)) }
        ensures err { OnErr result (history_of self.new ≡ history_of self.old) }
    {
        let Some(creates) = self.creates.checked_add(1) else {
            return Err(AllocError);
        };
        let bytes = Items::new(*self.files.allocator());
        self.log.reserve(1)?;
        file_list::insert(
            &mut self.files,
            DiskFile {
                stamp,
                bytes,
                synced: 0,
                settled: false,
            },
        )?;
        self.creates = creates;
        write_down(&mut self.log, Undo::Created(stamp));
        Ok(())
    }

    pub(crate) fn append(&mut self, stamp: u64, bytes: &[u8]) -> Result<(), AllocError>
        requires { IsSome ((history_of self.old).now.standing stamp) }
        ensures ok { OnOk result (history_of self.new ≡ after (after_append stamp bytes.now) (history_of self.old)) }
        ensures err { OnErr result (history_of self.new ≡ history_of self.old) }
    {
        self.log.reserve(1)?;
        file_list::append(&mut self.files, stamp, bytes)?;
        write_down(&mut self.log, Undo::Appended(stamp, bytes.len()));
        Ok(())
    }

    pub(crate) fn sync(&mut self, stamp: u64, reached: u64) -> Result<(), AllocError>
        requires { IsSome ((history_of self.old).now.standing stamp) }
        ensures ok { OnOk result (history_of self.new ≡ after (after_sync stamp reached) (history_of self.old)) }
        ensures err { OnErr result (history_of self.new ≡ history_of self.old) }
    {
        self.log.reserve(1)?;
        let before = file_list::sync(&mut self.files, stamp, reached);
        write_down(&mut self.log, Undo::Synced(stamp, before));
        Ok(())
    }

    pub(crate) fn remove(&mut self, stamp: u64) -> Result<(), AllocError>
        requires { IsSome ((history_of self.old).now.standing stamp) }
        ensures ok { OnOk result (history_of self.new ≡ after (after_remove stamp) (history_of self.old)) }
        ensures err { OnErr result (history_of self.new ≡ history_of self.old) }
    {
        self.log.reserve(1)?;
        self.removed.reserve(1)?;
        let file = file_list::take(&mut self.files, stamp);
        write_down(&mut self.log, Undo::Removed(file.settled));
        file_list::push(&mut self.removed, file);
        Ok(())
    }

    pub(crate) fn settle(&mut self) -> Result<(), AllocError>
        ensures ok { OnOk result (history_of self.new ≡ after after_settle (history_of self.old)) }
        ensures err { OnErr result (history_of self.new ≡ history_of self.old) }
    {
        let alloc = *self.files.allocator();
        let unsettled = file_list::unsettled_stamps(alloc, self.files.as_slice())?;
        self.log.reserve(1)?;
        file_list::settle_all(&mut self.files);
        let removed = mem::replace(&mut self.removed, Vec::new(alloc));
        write_down(&mut self.log, Undo::Settled(unsettled, removed));
        Ok(())
    }

    /// Adds a file that is synced and settled, and forgets the earlier moments.
    pub(crate) fn add_file(&mut self, stamp: u64, bytes: &[u8]) -> Result<(), AllocError>
        requires in_range { stamp < 2 ^ 63 }
        requires absent { IsNone ((history_of self.old).now.standing stamp) }
        ensures ok { OnOk result
            (history_of self.new
            ≡ record { now = with_safe_file stamp bytes.now (history_of self.old).now; past = [] }) }
        ensures err { OnErr result (history_of self.new ≡ history_of self.old) }
    {
        if bytes.len() as u64 > LONGEST {
            return Err(AllocError);
        }
        file_list::insert_safe(&mut self.files, stamp, bytes)?;
        self.log.clear();
        Ok(())
    }

    /// A recording of the files that the list keeps, all safe, with no earlier moments.
    pub(crate) fn crash(&self, keeps: &[Keep]) -> Result<Option<Recording>, AllocError>
        ensures keepable { IfOk result (λ left. IfSome left (λ _. IsKeepable (history_of self.now).now keeps.now)) }
        ensures history { IfOk result (λ left. IfSome left (λ kept.
            history_of kept ≡ record { now = resting (image_of (history_of self.now).now keeps.now); past = [] })) }
        ensures none { IfOk result (λ left. IfNone left (IsKeepable (history_of self.now).now keeps.now → ⊥)) }
    {
        let alloc = self.allocator();
        let left = crash::files_left(alloc, self.files.as_slice(), self.removed.as_slice(), keeps)?;
        match left {
            None => Ok(None),
            Some(files) => Ok(Some(Recording {
                files,
                removed: Vec::new(alloc),
                told: 0,
                creates: 0,
                log: Vec::new(alloc),
            })),
        }
    }

    pub(crate) fn tell(&mut self, n: u64) -> Result<(), AllocError>
        ensures ok { OnOk result (history_of self.new ≡ after (after_tell n) (history_of self.old)) }
        ensures err { OnErr result (history_of self.new ≡ history_of self.old) }
    {
        self.log.reserve(1)?;
        write_down(&mut self.log, Undo::Told(self.told));
        self.told = n;
        Ok(())
    }
}
