//! Where a program's input comes from and its output goes to.
ghost use Rattle.std.specs.Prelude.{List, ℕ, Option, ◌<◌, ◌≤◌, length, IfOk};
ghost use Rattle.session_disk.specs.Causes.{HasCause};
ghost use Rattle.session_disk.specs.Streams.{TakesFrom, AddsTo};

use crate::failure::Failed;

/// Bytes that are read once, from start to end.
pub trait Source: Drop {
    /// The bytes that are left, where the source tells them.
    ghost left: { Self → Option (List ℕ) };

    /// How often a read has failed; it stops at 2^64 - 1.
    ghost faults: { Self → ℕ };

    /// Reads into the start of the buffer and answers how many bytes came, 0 only at the end.
    fn read(&mut self, into: &mut [u8]) -> Result<usize, Failed>
        requires { 0 < length into.old }
        ensures bound { IfOk result (λ n. n ≤ length into.old) }
        ensures bytes { TakesFrom (left self.old) (left self.new) result into.new }
        ensures cause { HasCause (faults self.old) (faults self.new) result };
}

/// Bytes that are written one after another.
pub trait Sink: Drop {
    /// All that was written, where the sink tells it.
    ghost written: { Self → Option (List ℕ) };

    /// How often a write has failed; it stops at 2^64 - 1.
    ghost faults: { Self → ℕ };

    /// Writes some of the first bytes, at least one, and answers how many.
    fn write(&mut self, bytes: &[u8]) -> Result<usize, Failed>
        requires { 0 < length bytes.now }
        ensures bound { IfOk result (λ n. (0 < n) × (n ≤ length bytes.now)) }
        ensures bytes { AddsTo (written self.old) (written self.new) result bytes.now }
        ensures cause { HasCause (faults self.old) (faults self.new) result };
}
