//! A disk in memory, modelled with its files and all its earlier moments.
ghost use Rattle.std.specs.Prelude.{◌≡◌, ◌↔◌, true, false, ◌<◌, ◌≤◌, ◌^◌, [], length, take, IfOk, OnOk, OnErr, IsOk, IsErrOf, IfSome, IfNone, IsSome, IsNone};
ghost use Rattle.session_disk.specs.declared.failure.DiskError.TheVariants.{Failed};
ghost use Rattle.session_disk.specs.Causes.{DiskHasCause};
ghost use Rattle.session_disk.specs.Crashes.{IsKeepable, IsListedImage, image_of, resting};
ghost use Rattle.session_disk.specs.DiskFiles.{is_listed, standing_in};
ghost use Rattle.session_disk.specs.FailurePlans.{no_failures, planned};
ghost use Rattle.session_disk.specs.Histories.{Changes};
ghost use Rattle.session_disk.specs.Images.{Image};
ghost use Rattle.session_disk.specs.Moments.{IsAtRest, IsNewestBelow, IsBytes, IsReadAt, after_create, after_append, after_sync, after_remove, after_settle, after_tell, bytes_at};
ghost use Rattle.session_disk.specs.Recordings.{empty_moment, with_safe_file};

use crate::disk::SessionDisk;
use crate::failure::DiskError;
use crate::memory::crash::Keep;
use crate::memory::failure_plan::{Call, Failure, FailurePlan, answer, count_failure, part_of};
use crate::memory::file_list::DiskFile;
use crate::memory::recording::Recording;
use crate::memory::streams::read_from;
use std::alloc::{AllocError, Global};

/// Files in memory. It holds each byte once, and a few words for each call that changed something, until it is
/// dropped: `append` takes time in the bytes that it adds, amortised, every other call in the number of files.
/// A call that finds no memory leaves the files as they are, and so does one that would make a file longer than
/// 2^62 bytes or the count of creations larger than 2^64 - 1.
#[derive(Drop)]
pub struct MemoryDisk {
    recording: Recording,
    plan: FailurePlan,
    failed_calls: u64,
}

impl MemoryDisk {
    ghost use Rattle.session_disk.specs.MemoryDisks.{history_of, failures_of, plan_of};

    /// No files; nothing was told, nothing failed and no failure is planned.
    pub fn empty(alloc: Global) -> Result<MemoryDisk, AllocError>
        ensures history { IfOk result (λ disk. history_of disk ≡ record { now = empty_moment; past = [] }) }
        ensures at_rest { IfOk result (λ disk. IsAtRest (history_of disk).now) }
        ensures failures { IfOk result (λ disk. failures_of disk ≡ 0) }
        ensures plan { IfOk result (λ disk. plan_of disk ≡ no_failures) }
    {
        Ok(MemoryDisk {
            recording: Recording::new(alloc),
            plan: FailurePlan::none(alloc),
            failed_calls: 0,
        })
    }

    /// Adds a file whose bytes and name are safe, to a disk that is made ready: the file counts as having stood
    /// from the start.
    pub fn add_file(&mut self, stamp: u64, bytes: &[u8]) -> Result<(), AllocError>
        requires in_range { stamp < 2 ^ 63 }
        requires at_rest { IsAtRest (history_of self.old).now }
        requires untold { (history_of self.old).now.told ≡ 0 }
        requires absent { IsNone ((history_of self.old).now.standing stamp) }
        ensures ok { OnOk result
            (history_of self.new
            ≡ record { now = with_safe_file stamp bytes.now (history_of self.old).now; past = [] }) }
        ensures at_rest { IsAtRest (history_of self.new).now }
        ensures err { OnErr result (history_of self.new ≡ history_of self.old) }
        ensures failures { failures_of self.new ≡ failures_of self.old }
        ensures plan { plan_of self.new ≡ plan_of self.old }
    {
        self.recording.add_file(stamp, bytes)
    }

    /// Plans failures of calls from now on, in place of those that were planned before. A call that finds no memory
    /// for its work says so, whatever is planned for it. Each call looks through the whole plan.
    pub fn fail(&mut self, plan: &[Failure]) -> Result<(), AllocError>
        ensures ok { OnOk result (plan_of self.new ≡ record { coming = plan.now; broken = false }) }
        ensures err { OnErr result (plan_of self.new ≡ plan_of self.old) }
        ensures unchanged { history_of self.new ≡ history_of self.old }
        ensures failures { failures_of self.new ≡ failures_of self.old }
    {
        self.plan.replace(plan)
    }

    /// The disk that a crash now leaves, where it leaves just these files with these lengths: all is safe, nothing
    /// was told, made or refused, and no failure is planned. A stamp means the file that stands, and where none
    /// does, the one that was removed last. It takes time in the bytes that are left, and in the number of files
    /// for each entry of the list.
    ///
    /// None where a crash can't leave just these: a stamp comes twice or means no file, a length is below what is
    /// synced or beyond the file's end, or a file whose name is settled is left out.
    pub fn crash(&self, keeps: &[Keep]) -> Result<Option<MemoryDisk>, AllocError>
        ensures keepable { IfOk result (λ left. IsSome left ↔ IsKeepable (history_of self.now).now keeps.now) }
        ensures image { IfOk result (λ left. IfSome left (λ _.
            IsListedImage (history_of self.now).now keeps.now (image_of (history_of self.now).now keeps.now))) }
        ensures none { IfOk result (λ left. IfNone left
            ((image : Image) → IsListedImage (history_of self.now).now keeps.now image → ⊥)) }
        ensures history { IfOk result (λ left. IfSome left (λ disk.
            history_of disk ≡ record { now = resting (image_of (history_of self.now).now keeps.now); past = [] })) }
        ensures at_rest { IfOk result (λ left. IfSome left (λ disk. IsAtRest (history_of disk).now)) }
        ensures failures { IfOk result (λ left. IfSome left (λ disk. failures_of disk ≡ 0)) }
        ensures plan { IfOk result (λ left. IfSome left (λ disk. plan_of disk ≡ no_failures)) }
    {
        match self.recording.crash(keeps)? {
            None => Ok(None),
            Some(recording) => {
                let plan = FailurePlan::none(recording.allocator());
                Ok(Some(MemoryDisk {
                    recording,
                    plan,
                    failed_calls: 0,
                }))
            }
        }
    }

    /// The files that stand, by rising stamp.
    pub fn files(&self) -> &[DiskFile]
        ensures listed { is_listed result.now ≡ true }
        ensures standing { (history_of self.now).now.standing ≡ standing_in result.now }
    {
        self.recording.files()
    }
}

impl SessionDisk for MemoryDisk {
    ghost use Rattle.session_disk.specs.MemoryDisks.{history_of, failures_of, plan_of, FailsAsPlanned, IsCounted};

    ghost modelled = { Unit {0} };

    ghost history = { history_of };

    ghost failed = { failures_of };

    fn failures(&self) -> u64 {
        self.failed_calls
    }

    fn newest_below(&mut self, below: Option<u64>) -> Result<Option<u64>, DiskError>
        ensures in_range { IfOk result (λ newest. IfSome newest (λ stamp. stamp < 2 ^ 63)) }
        ensures within { IfOk result (λ newest. IfSome newest (λ stamp. IfSome below (λ bound. stamp < bound))) }
        ensures newest { IfOk result (IsNewestBelow (history_of self.old).now.standing below) }
        ensures unchanged { history_of self.new ≡ history_of self.old }
        ensures cause { DiskHasCause (failures_of self.old) (failures_of self.new) result }
        ensures succeeds { planned Call.List (plan_of self.old) ≡ None → IsOk result }
        ensures fails { IsSome (planned Call.List (plan_of self.old)) → IsErrOf result Failed }
        ensures counted { IsCounted Call.List self.old self.new result }
    {
        if self.plan.next(Call::List).is_some() {
            return Err(count_failure(&mut self.failed_calls));
        }
        Ok(self.recording.newest_below(below))
    }

    fn length(&mut self, stamp: u64) -> Result<u64, DiskError>
        requires { IsSome ((history_of self.old).now.standing stamp) }
        ensures bound { IfOk result (λ n. n ≤ 2 ^ 62) }
        ensures value { IfOk result (λ n. n ≡ length (bytes_at stamp (history_of self.old).now)) }
        ensures unchanged { history_of self.new ≡ history_of self.old }
        ensures cause { DiskHasCause (failures_of self.old) (failures_of self.new) result }
        ensures succeeds { planned Call.Length (plan_of self.old) ≡ None → IsOk result }
        ensures fails { IsSome (planned Call.Length (plan_of self.old)) → IsErrOf result Failed }
        ensures counted { IsCounted Call.Length self.old self.new result }
    {
        if self.plan.next(Call::Length).is_some() {
            return Err(count_failure(&mut self.failed_calls));
        }
        Ok(self.recording.bytes(stamp).len() as u64)
    }

    fn read_at(&mut self, stamp: u64, offset: u64, into: &mut [u8]) -> Result<usize, DiskError>
        requires { IsSome ((history_of self.old).now.standing stamp) }
        ensures bound { IfOk result (λ n. n ≤ length into.old) }
        ensures bytes { IfOk result (λ n. IsReadAt (bytes_at stamp (history_of self.old).now) offset n into.new) }
        ensures range { IfOk result (λ _. IsBytes (bytes_at stamp (history_of self.old).now)) }
        ensures unchanged { history_of self.new ≡ history_of self.old }
        ensures cause { DiskHasCause (failures_of self.old) (failures_of self.new) result }
        ensures succeeds { planned Call.Read (plan_of self.old) ≡ None → IsOk result }
        ensures fails { IsSome (planned Call.Read (plan_of self.old)) → IsErrOf result Failed }
        ensures counted { IsCounted Call.Read self.old self.new result }
    {
        if self.plan.next(Call::Read).is_some() {
            return Err(count_failure(&mut self.failed_calls));
        }
        Ok(read_from(self.recording.bytes(stamp), offset, into))
    }

    fn create(&mut self, stamp: u64) -> Result<(), DiskError>
        requires in_range { stamp < 2 ^ 63 }
        requires absent { IsNone ((history_of self.old).now.standing stamp) }
        ensures changes { Changes (history_of self.old) (history_of self.new) result 0 (λ _. after_create stamp) }
        ensures cause { DiskHasCause (failures_of self.old) (failures_of self.new) result }
        ensures fails { FailsAsPlanned Call.Create self.old self.new result 0 (λ _. after_create stamp) }
        ensures counted { IsCounted Call.Create self.old self.new result }
    {
        let fault = self.plan.next(Call::Create);
        if fault == Some(0) {
            return Err(count_failure(&mut self.failed_calls));
        }
        self.recording.create(stamp)?;
        answer(fault, &mut self.failed_calls)
    }

    fn append(&mut self, stamp: u64, bytes: &[u8]) -> Result<(), DiskError>
        requires { IsSome ((history_of self.old).now.standing stamp) }
        ensures changes { Changes (history_of self.old) (history_of self.new) result
            (length bytes.now) (λ n. after_append stamp (take n bytes.now)) }
        ensures cause { DiskHasCause (failures_of self.old) (failures_of self.new) result }
        ensures fails { FailsAsPlanned Call.Append self.old self.new result
            (length bytes.now) (λ n. after_append stamp (take n bytes.now)) }
        ensures counted { IsCounted Call.Append self.old self.new result }
    {
        let fault = self.plan.next(Call::Append);
        if fault == Some(0) {
            return Err(count_failure(&mut self.failed_calls));
        }
        let part = part_of(fault, bytes.len() as u64);
        self.recording.append(stamp, &bytes[..part as usize])?;
        answer(fault, &mut self.failed_calls)
    }

    fn sync(&mut self, stamp: u64) -> Result<(), DiskError>
        requires { IsSome ((history_of self.old).now.standing stamp) }
        ensures changes { Changes (history_of self.old) (history_of self.new) result
            (length (bytes_at stamp (history_of self.old).now)) (after_sync stamp) }
        ensures cause { DiskHasCause (failures_of self.old) (failures_of self.new) result }
        ensures fails { FailsAsPlanned Call.Sync self.old self.new result
            (length (bytes_at stamp (history_of self.old).now)) (after_sync stamp) }
        ensures counted { IsCounted Call.Sync self.old self.new result }
    {
        let fault = self.plan.next(Call::Sync);
        if fault == Some(0) {
            return Err(count_failure(&mut self.failed_calls));
        }
        let length = self.recording.bytes(stamp).len() as u64;
        self.recording.sync(stamp, part_of(fault, length))?;
        answer(fault, &mut self.failed_calls)
    }

    fn remove(&mut self, stamp: u64) -> Result<(), DiskError>
        requires { IsSome ((history_of self.old).now.standing stamp) }
        ensures changes { Changes (history_of self.old) (history_of self.new) result 0 (λ _. after_remove stamp) }
        ensures cause { DiskHasCause (failures_of self.old) (failures_of self.new) result }
        ensures fails { FailsAsPlanned Call.Remove self.old self.new result 0 (λ _. after_remove stamp) }
        ensures counted { IsCounted Call.Remove self.old self.new result }
    {
        let fault = self.plan.next(Call::Remove);
        if fault == Some(0) {
            return Err(count_failure(&mut self.failed_calls));
        }
        self.recording.remove(stamp)?;
        answer(fault, &mut self.failed_calls)
    }

    fn settle(&mut self) -> Result<(), DiskError>
        ensures changes { Changes (history_of self.old) (history_of self.new) result 0 (λ _. after_settle) }
        ensures cause { DiskHasCause (failures_of self.old) (failures_of self.new) result }
        ensures fails { FailsAsPlanned Call.Settle self.old self.new result 0 (λ _. after_settle) }
        ensures counted { IsCounted Call.Settle self.old self.new result }
    {
        let fault = self.plan.next(Call::Settle);
        if fault == Some(0) {
            return Err(count_failure(&mut self.failed_calls));
        }
        self.recording.settle()?;
        answer(fault, &mut self.failed_calls)
    }

    /// No failure is planned for it.
    fn tell(&mut self, n: u64) -> Result<(), DiskError>
        ensures changes { Changes (history_of self.old) (history_of self.new) result 0 (λ _. after_tell n) }
        ensures memory_alone { IsErrOf result Failed → ⊥ }
        ensures cause { DiskHasCause (failures_of self.old) (failures_of self.new) result }
        ensures failures { failures_of self.new ≡ failures_of self.old }
        ensures plan { plan_of self.new ≡ plan_of self.old }
    {
        self.recording.tell(n)?;
        Ok(())
    }
}
