//! A test that an issuer puts items while the disk syncs: the disk's sync of a compaction ends only when an item behind
//! the compaction was put, and that item is put only when the sync has begun. Either side gives up after a number of
//! looks at the other one.
ghost use Rattle.session_disk.specs.MemoryDisks.{history_of, failures_of};

use crate::runs::run_words;
use session_disk::{DiskError, FixedClock, MemoryDisk, MemorySink, MemorySource, SessionDisk};
use session_drive::{Gate, Status, drive_gated};
use std::alloc::{AllocError, Global};
use std::sync::Arc;
use std::sync::atomic::{AtomicU64, Ordering};
use std::test::Fail;
use std::thread;

/// How often one side looks at the other one, at most.
pub(crate) const MOST_LOOKS: u64 = 1_000_000_000;

// A run of `window`, `compact` and `window` puts these items in this order. The first sync of the session's disk is that
// of its opening, the second that of the compaction.
const COMPACTION: u64 = 2;

const BEHIND_COMPACTION: u64 = 3;

const SYNC_OF_COMPACTION: u64 = 2;

// How far both sides have come, and whether one of them gave up.
#[derive(Drop)]
struct Progress {
    puts: AtomicU64,
    syncs: AtomicU64,
    given_up: AtomicU64,
}

impl Progress {
    fn new() -> Progress {
        Progress {
            puts: AtomicU64::new(0),
            syncs: AtomicU64::new(0),
            given_up: AtomicU64::new(0),
        }
    }

    // Looks at a count until it is at least this.
    fn wait_for(&self, count: &AtomicU64, least: u64) {
        for _ in 0..MOST_LOOKS {
            if count.load(Ordering::SeqCst) >= least {
                return;
            }
            thread::yield_now();
        }
        self.given_up.store(1, Ordering::SeqCst);
    }
}

// A disk in memory whose syncs are counted, where it has a progress. The second one ends only behind the third put.
#[derive(Drop)]
struct GateDisk {
    disk: MemoryDisk,
    progress: Option<Arc<Progress, Global>>,
}

impl GateDisk {
    fn new(alloc: Global, progress: Option<Arc<Progress, Global>>) -> Result<GateDisk, AllocError> {
        Ok(GateDisk {
            disk: MemoryDisk::empty(alloc)?,
            progress,
        })
    }

    fn begin_sync(&self) {
        let Some(progress) = &self.progress else {
            return;
        };
        if progress.syncs.fetch_add(1, Ordering::SeqCst) == SYNC_OF_COMPACTION - 1 {
            progress.wait_for(&progress.puts, BEHIND_COMPACTION);
        }
    }
}

impl SessionDisk for GateDisk {
    ghost modelled = { Unit {0} };

    ghost history = { λ gated. history_of gated.disk };

    ghost failed = { λ gated. failures_of gated.disk };

    fn failures(&self) -> u64 {
        self.disk.failures()
    }

    fn newest_below(&mut self, below: Option<u64>) -> Result<Option<u64>, DiskError> {
        self.disk.newest_below(below)
    }

    fn length(&mut self, stamp: u64) -> Result<u64, DiskError> {
        self.disk.length(stamp)
    }

    fn read_at(&mut self, stamp: u64, offset: u64, into: &mut [u8]) -> Result<usize, DiskError> {
        self.disk.read_at(stamp, offset, into)
    }

    fn create(&mut self, stamp: u64) -> Result<(), DiskError> {
        self.disk.create(stamp)
    }

    fn append(&mut self, stamp: u64, bytes: &[u8]) -> Result<(), DiskError> {
        self.disk.append(stamp, bytes)
    }

    fn sync(&mut self, stamp: u64) -> Result<(), DiskError> {
        self.begin_sync();
        self.disk.sync(stamp)
    }

    fn remove(&mut self, stamp: u64) -> Result<(), DiskError> {
        self.disk.remove(stamp)
    }

    fn settle(&mut self) -> Result<(), DiskError> {
        self.disk.settle()
    }

    fn tell(&mut self, n: u64) -> Result<(), DiskError> {
        self.disk.tell(n)
    }
}

// Counts the puts. Behind the one of the compaction it waits until the disk's sync of it has begun.
#[derive(Drop)]
struct SyncGate {
    progress: Arc<Progress, Global>,
}

impl Gate for SyncGate {
    fn passed(&self, puts: u64) {
        self.progress.puts.store(puts, Ordering::SeqCst);
        if puts == COMPACTION {
            self.progress
                .wait_for(&self.progress.syncs, SYNC_OF_COMPACTION);
        }
    }
}

#[test]
fn gate(rt: HostRuntime) -> Result<(), Fail> {
    let alloc = rt.alloc();
    let progress = Arc::new(alloc, Progress::new())?;
    let words = run_words(alloc, "", false)?;
    let mut script = MemorySource::new(alloc, b"window 1\ncompact\nwindow 2\n", &[])?;
    let mut out = MemorySink::new(alloc, &[])?;
    let session = GateDisk::new(alloc, Some(progress.clone()?))?;
    let tabs = GateDisk::new(alloc, None)?;
    let gate = SyncGate {
        progress: progress.clone()?,
    };
    let (status, _, _) = drive_gated(
        &rt,
        alloc,
        words.as_slice(),
        &mut script,
        &mut out,
        session,
        tabs,
        &mut FixedClock::new(100),
        &gate,
    );
    assert_eq!(rt; progress.given_up.load(Ordering::SeqCst), 0);
    assert_eq!(rt;
        status,
        Status::Done {
            session: 2,
            tabs: 0
        }
    );
    assert_eq!(rt; out.written(), b"start 0 0 0\ndone 2 0\n".as_slice());
    Ok(())
}
