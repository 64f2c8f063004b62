//! A source and a sink over memory, whose calls fail where that is asked for.
ghost use Rattle.std.specs.Prelude.{◌≡◌, ℕ, ◌<◌, ◌≤◌, ◌↔◌, [], ◌++◌, length, take, drop, min, IfOk, IsErr, IsTrue, Contains};
ghost use Rattle.session_disk.specs.Causes.{HasCause};
ghost use Rattle.session_disk.specs.Moments.{IsBytes, IsReadAt};
ghost use Rattle.session_disk.specs.Streams.{TakesFrom, AddsTo};
ghost use Rattle.session_disk.specs.MemoryStreams.{next_count};

use crate::failure::Failed;
use crate::stream::{Sink, Source};
use std::alloc::{AllocError, Global};
use std::marker::Model;

/// A source over a copy of bytes. It holds that copy until it is dropped, and its reads take no memory.
#[derive(Drop)]
pub struct MemorySource {
    all: Vec<u8>,
    start: usize,
    failing: Vec<u64>,
    reads: u64,
    failed: u64,
}

impl Model for MemorySource {
    ghost use Rattle.std.specs.Prelude.{◌≤◌, drop, vec_len};
    ghost use Rattle.session_disk.specs.MemoryStreams.{Input};

    ghost Value = { Input };

    ghost view = { λ s. record {
      bytes = drop s.start s.all.items;
      fails = s.failing.items;
      calls = s.reads;
      faults = s.failed;
    } };

    ghost invariant = { λ s. s.start ≤ vec_len s.all };
}

impl MemorySource {
    /// `fails` names the calls that fail, counted from 1. Failing calls count too.
    pub fn new(alloc: Global, bytes: &[u8], fails: &[u64]) -> Result<MemorySource, AllocError>
        ensures { IfOk result
            (λ source. source ≡ record { bytes = bytes.now; fails = fails.now; calls = 0; faults = 0 }) }
    {
        let all = Vec::from_slice(alloc, bytes)?;
        let failing = Vec::from_slice(alloc, fails)?;
        Ok(MemorySource {
            all,
            start: 0,
            failing,
            reads: 0,
            failed: 0,
        })
    }
}

impl Source for MemorySource {
    ghost use Rattle.std.specs.Prelude.{Some};

    ghost left = { λ source. Some source.bytes };

    ghost faults = { λ source. source.faults };

    fn read(&mut self, into: &mut [u8]) -> Result<usize, Failed>
        requires { 0 < length into.old }
        ensures bound { IfOk result (λ n. n ≤ length into.old) }
        ensures bytes { TakesFrom (Some self.old.bytes) (Some self.new.bytes) result into.new }
        ensures cause { HasCause self.old.faults self.new.faults result }
        ensures fails { IsErr result ↔ Contains self.old.fails (next_count self.old.calls) }
        ensures calls { (self.new.fails ≡ self.old.fails) × (self.new.calls ≡ next_count self.old.calls) }
    {
        self.reads = self.reads.saturating_add(1);
        if is_named(self.failing.as_slice(), self.reads) {
            self.failed = self.failed.saturating_add(1);
            return Err(Failed);
        }
        let n = copy_prefix(&self.all[self.start..], into);
        self.start += n;
        Ok(n)
    }
}

/// A sink that keeps what is written, in one vector that doubles as it grows.
#[derive(Drop)]
pub struct MemorySink {
    taken: Vec<u8>,
    failing: Vec<u64>,
    writes: u64,
    failed: u64,
}

impl Model for MemorySink {
    ghost use Rattle.session_disk.specs.MemoryStreams.{Output};

    ghost Value = { Output };

    ghost view = { λ s. record {
      bytes = s.taken.items;
      fails = s.failing.items;
      calls = s.writes;
      faults = s.failed;
    } };
}

impl MemorySink {
    /// `fails` names the calls that fail, counted from 1. Failing calls count too.
    pub fn new(alloc: Global, fails: &[u64]) -> Result<MemorySink, AllocError>
        ensures { IfOk result
            (λ sink. sink ≡ record { bytes = []; fails = fails.now; calls = 0; faults = 0 }) }
    {
        let failing = Vec::from_slice(alloc, fails)?;
        Ok(MemorySink {
            taken: Vec::new(alloc),
            failing,
            writes: 0,
            failed: 0,
        })
    }

    /// All that was written.
    pub fn written(&self) -> &[u8]
        ensures { result.now ≡ self.now.bytes }
    {
        self.taken.as_slice()
    }
}

impl Sink for MemorySink {
    ghost use Rattle.std.specs.Prelude.{Some};

    ghost written = { λ sink. Some sink.bytes };

    ghost faults = { λ sink. sink.faults };

    /// Takes all the bytes. A growth that finds no memory is a fault too.
    fn write(&mut self, bytes: &[u8]) -> Result<usize, Failed>
        requires { 0 < length bytes.now }
        ensures bound { IfOk result (λ n. (0 < n) × (n ≤ length bytes.now)) }
        ensures bytes { AddsTo (Some self.old.bytes) (Some self.new.bytes) result bytes.now }
        ensures cause { HasCause self.old.faults self.new.faults result }
        ensures whole { IfOk result (λ n. n ≡ length bytes.now) }
        ensures fails { Contains self.old.fails (next_count self.old.calls) → IsErr result }
        ensures calls { (self.new.fails ≡ self.old.fails) × (self.new.calls ≡ next_count self.old.calls) }
    {
        self.writes = self.writes.saturating_add(1);
        if is_named(self.failing.as_slice(), self.writes) {
            self.failed = self.failed.saturating_add(1);
            return Err(Failed);
        }
        if self.taken.extend_from_slice(bytes).is_err() {
            self.failed = self.failed.saturating_add(1);
            return Err(Failed);
        }
        Ok(bytes.len())
    }
}

/// Copies as many bytes as both have room for, and answers how many.
pub(crate) fn copy_prefix(from: &[u8], into: &mut [u8]) -> usize
    ensures count { result ≡ min (length from.now) (length into.old) }
    ensures bytes { take result into.new ≡ take result from.now }
{
    let n = from.len().min(into.len());
    into[..n].copy_from_slice(&from[..n]);
    n
}

fn is_named(calls: &[u64], call: u64) -> bool
    ensures { IsTrue result ↔ Contains calls.now call }
{
    calls.contains(&call)
}

/// Copies what follows an offset, as far as there is room, and answers how many bytes.
pub(crate) fn read_from(file: &[u8], offset: u64, into: &mut [u8]) -> usize
    ensures bound { result ≤ length into.old }
    ensures bytes { IsReadAt file.now offset result into.new }
    ensures range { IsBytes file.now }
{
    if offset >= file.len() as u64 {
        return 0;
    }
    copy_prefix(&file[offset as usize..], into)
}
