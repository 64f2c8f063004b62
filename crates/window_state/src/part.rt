//! Copies of lists whose items own memory.
ghost use Rattle.std.specs.Prelude.{◌≡◌, IfOk};

use std::alloc::{AllocError, Global};

/// What a list of a view holds.
pub(crate) trait Part: Drop {
    /// The same part, in memory of its own.
    fn copy(&self) -> Result<Self, AllocError>
        ensures { IfOk result (λ part. part ≡ self.now) };
}

/// The same parts, in memory of their own.
pub(crate) fn copied<P: Part>(alloc: Global, parts: &[P]) -> Result<Vec<P>, AllocError>
    ensures { IfOk result (λ v. v.items ≡ parts.now) }
{
    let mut copied = Vec::with_capacity(alloc, parts.len())?;
    for part in parts {
        copied.push(part.copy()?)?;
    }
    Ok(copied)
}
