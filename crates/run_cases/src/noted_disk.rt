//! A disk in memory that notes what it is told and how many files it makes, which a disk in memory keeps to itself.

use session_disk::{DiskError, MemoryDisk, SessionDisk};

#[derive(Drop)]
pub(crate) struct NotedDisk {
    pub(crate) disk: MemoryDisk,
    pub(crate) told: u64,
    pub(crate) creates: u64,
}

impl NotedDisk {
    pub(crate) fn new(disk: MemoryDisk) -> NotedDisk {
        NotedDisk {
            disk,
            told: 0,
            creates: 0,
        }
    }
}

impl SessionDisk for NotedDisk {
    ghost use Rattle.session_disk.specs.MemoryDisks.{history_of, failures_of};

    ghost modelled = { Unit {0} };

    ghost history = { λ noted. history_of noted.disk };

    ghost failed = { λ noted. failures_of noted.disk };

    fn failures(&self) -> u64 {
        self.disk.failures()
    }

    fn newest_below(&mut self, below: Option<u64>) -> Result<Option<u64>, DiskError> {
        self.disk.newest_below(below)
    }

    fn length(&mut self, stamp: u64) -> Result<u64, DiskError> {
        self.disk.length(stamp)
    }

    fn read_at(&mut self, stamp: u64, offset: u64, into: &mut [u8]) -> Result<usize, DiskError> {
        self.disk.read_at(stamp, offset, into)
    }

    fn create(&mut self, stamp: u64) -> Result<(), DiskError> {
        let outcome = self.disk.create(stamp);
        if outcome.is_ok() {
            self.creates = self.creates.saturating_add(1);
        }
        outcome
    }

    fn append(&mut self, stamp: u64, bytes: &[u8]) -> Result<(), DiskError> {
        self.disk.append(stamp, bytes)
    }

    fn sync(&mut self, stamp: u64) -> Result<(), DiskError> {
        self.disk.sync(stamp)
    }

    fn remove(&mut self, stamp: u64) -> Result<(), DiskError> {
        self.disk.remove(stamp)
    }

    fn settle(&mut self) -> Result<(), DiskError> {
        self.disk.settle()
    }

    fn tell(&mut self, n: u64) -> Result<(), DiskError> {
        let outcome = self.disk.tell(n);
        if outcome.is_ok() {
            self.told = n;
        }
        outcome
    }
}
