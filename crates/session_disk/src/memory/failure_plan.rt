//! Which of the coming calls of a disk in memory fail, and after how much of their work.
ghost use Rattle.std.specs.Prelude.{◌≡◌, false, ◌≤◌, map, option_copied, IfOk, OnOk, OnErr};
ghost use Rattle.session_disk.specs.declared.failure.DiskError.TheVariants.{Failed};
ghost use Rattle.session_disk.specs.FailurePlans.{due, counted, part_of, answer_of, failures_after};
ghost use Rattle.session_disk.specs.MemoryStreams.{next_count};

use crate::failure::DiskError;
use std::alloc::{AllocError, Global};

/// A kind of a disk's calls. `tell` has none, since it is refused for want of memory alone.
#[derive(Clone, Copy, Debug, PartialEq, Eq)]
pub enum Call {
    /// `newest_below`.
    List,
    Length,
    /// `read_at`.
    Read,
    Create,
    Append,
    Sync,
    Remove,
    Settle,
}

/// A call that is to fail. Of several that are planned for one call, the first counts.
#[derive(Clone, Copy, Debug)]
pub struct Failure {
    pub call: Call,
    /// The number of the call among those of its kind from now on, counted from 1. No call has the number 0.
    pub nth: u64,
    /// How much of its work the call does: so many bytes of an append or a sync, at most all of them; all of a
    /// create, a remove or a settle where this isn't 0. A call that only reads does nothing.
    pub done: u64,
    /// Whether all later calls of every kind fail too, and do nothing.
    pub lasting: bool,
}

/// The failures that are to come. A call that was made has the number 0 from then on.
#[derive(Drop)]
pub(crate) struct FailurePlan {
    coming: Vec<Failure>,
    broken: bool,
}

impl FailurePlan {
    ghost use Rattle.session_disk.specs.FailurePlans.{plan_of, no_failures, planned, after_call};

    pub(crate) fn none(alloc: Global) -> FailurePlan
        ensures { plan_of result ≡ no_failures }
    {
        FailurePlan {
            coming: Vec::new(alloc),
            broken: false,
        }
    }

    /// Plans these failures in place of what was planned before.
    pub(crate) fn replace(&mut self, failures: &[Failure]) -> Result<(), AllocError>
        ensures ok { OnOk result (plan_of self.new ≡ record { coming = failures.now; broken = false }) }
        ensures err { OnErr result (plan_of self.new ≡ plan_of self.old) }
    {
        self.coming = Vec::from_slice(*self.coming.allocator(), failures)?;
        self.broken = false;
        Ok(())
    }

    /// Counts the next call of a kind, and answers after how much of its work it fails, where it does.
    pub(crate) fn next(&mut self, call: Call) -> Option<u64>
        ensures fault { result ≡ planned call (plan_of self.old) }
        ensures plan { plan_of self.new ≡ after_call call (plan_of self.old) }
    {
        let due = due(self.coming.as_slice(), call);
        count(self.coming.as_mut_slice(), call);
        if self.broken {
            return Some(0);
        }
        let failure = due?;
        self.broken = failure.lasting;
        Some(failure.done)
    }
}

/// The failure that is to come at the next call of a kind.
fn due(coming: &[Failure], call: Call) -> Option<Failure>
    ensures { result ≡ due call coming.now }
{
    for failure in coming {
        if failure.call == call && failure.nth == 1 {
            return Some(*failure);
        }
    }
    None
}

/// Counts a call of a kind.
fn count(coming: &mut [Failure], call: Call)
    ensures { coming.new ≡ map (counted call) coming.old }
{
    for failure in coming.iter_mut() {
        *failure = counted(*failure, call);
    }
}

fn counted(failure: Failure, call: Call) -> Failure
    ensures { result ≡ counted call failure }
{
    if failure.call != call {
        return failure;
    }
    Failure {
        nth: failure.nth.saturating_sub(1),
        ..failure
    }
}

/// How much of a counted work is done, where it isn't to fail before it begins.
pub(crate) fn part_of(fault: Option<u64>, all: u64) -> u64
    ensures value { result ≡ part_of fault all }
    ensures bound { result ≤ all }
{
    match fault {
        None => all,
        Some(done) => done.min(all),
    }
}

/// Counts a failure.
pub(crate) fn count_failure(failures: &mut u64) -> DiskError
    ensures value { result ≡ Failed }
    ensures count { failures.new ≡ next_count failures.old }
    ensures later { failures.old ≤ failures.new }
{
    *failures = failures.saturating_add(1);
    DiskError::Failed
}

/// The answer of a call after its work, with a failure counted.
pub(crate) fn answer(fault: Option<u64>, failures: &mut u64) -> Result<(), DiskError>
    ensures value { result ≡ answer_of fault }
    ensures count { failures.new ≡ failures_after result failures.old }
    ensures later { failures.old ≤ failures.new }
{
    match fault {
        None => Ok(()),
        Some(_) => Err(count_failure(failures)),
    }
}
