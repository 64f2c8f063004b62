//! The system's clock as microseconds since 1601-01-01 UTC.
use crate::clock::Clock;
use std::rt::Clock as RuntimeClock;
use std::time::{Duration, SystemTime};

/// The system's clock. A moment past 2^62 is 2^62, one before 1601 is 0, and so is a clock that can't be read.
#[derive(Drop)]
pub struct StdClock<R> {
    rt: R,
}

impl<R: RuntimeClock + Drop> StdClock<R> {
    pub fn new(rt: R) -> StdClock<R> {
        StdClock { rt }
    }
}

impl<R: RuntimeClock + Drop> Clock for StdClock<R> {
    ghost modelled = { ⊥ };

    ghost moment = { λ _. 0 };

    fn now(&mut self) -> u64 {
        let Ok(now) = SystemTime::now(&self.rt) else {
            return 0;
        };
        match now.duration_since(SystemTime::UNIX_EPOCH) {
            Ok(after) => FROM_1601_TO_1970.saturating_add(micros(after)).min(LATEST),
            Err(error) => FROM_1601_TO_1970.saturating_sub(micros(error.duration())),
        }
    }
}

// 11,644,473,600 seconds lie between 1601-01-01 and 1970-01-01.
const FROM_1601_TO_1970: u64 = 11_644_473_600_000_000;

const LATEST: u64 = 1 << 62;

fn micros(duration: Duration) -> u64 {
    u64::try_from(duration.as_micros()).unwrap_or(u64::MAX)
}
