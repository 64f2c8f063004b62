//! The stamp of a fresh file.
ghost use Rattle.std.specs.Prelude.{◌≡◌, ◌<◌, ◌≤◌, ◌-◌, ◌^◌, IfOk, IfSome};
ghost use Rattle.std.specs.Option.{ForSome};
ghost use Rattle.file_rotation.specs.Stamps.{fresh_stamp};

use thiserror::Error;

/// The greatest stamp that a file may have.
const STAMP_MAX: u64 = (1 << 63) - 1;

/// A file has the last stamp, 2^63 - 1, which it carries: no greater one is left.
#[derive(Clone, Copy, Debug, PartialEq, Eq, Error)]
#[error("no stamp is greater than {0}")]
pub struct LastStamp(pub u64);

/// A stamp above the greatest one: the larger of `now`, at most 2^62, and the greatest plus 1. It takes no memory.
pub fn fresh_stamp(now: u64, greatest: Option<u64>) -> Result<u64, LastStamp>
    requires now { now ≤ 2 ^ 62 }
    requires greatest { ForSome greatest (λ stamp. stamp ≤ 2 ^ 63 - 1) }
    ensures value { result ≡ fresh_stamp now greatest }
    ensures above { IfOk result (λ stamp. IfSome greatest (λ other. other < stamp)) }
    ensures in_range { IfOk result (λ stamp. stamp ≤ 2 ^ 63 - 1) }
{
    match greatest {
        None => Ok(now),
        Some(STAMP_MAX) => Err(LastStamp(STAMP_MAX)),
        Some(stamp) => Ok(now.max(stamp + 1)),
    }
}
