//! Texts that may be missing.
ghost use Rattle.std.specs.Prelude.{◌≡◌, IfOk};

use pickle_cells::Blob;
use std::alloc::AllocError;

/// The same, in memory of its own.
pub fn copy(text: &Option<Blob>) -> Result<Option<Blob>, AllocError>
    ensures { IfOk result (λ t. t ≡ text.now) }
{
    match text {
        Some(text) => Ok(Some(text.copy()?)),
        None => Ok(None),
    }
}
