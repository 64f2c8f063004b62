//! Reading what stands behind a navigation's transition, for display.
ghost use Rattle.std.specs.Prelude.{◌≡◌, IfOk};
ghost use Rattle.navigation_entry.specs.Display.{more};

use crate::fields::{Fields, info_of, owned, owned_units};
use crate::more::More;
use pickle_cells::Blob;
use std::alloc::{AllocError, Global};

/// What the bytes behind a navigation's transition say. A negative count of pairs doesn't read, and no memory is
/// taken by a count: pairs are read one by one, up to the first that doesn't read.
#[tactic(auto, unfolding(crate::specs::Display::more))]
pub fn read_more(alloc: Global, rest: &[u8]) -> Result<More, AllocError>
    ensures { IfOk result (λ m. m ≡ more rest.now) }
{
    let mut fields = Fields::new(rest);
    let type_mask = fields.int();
    let referrer = owned(alloc, fields.bytes())?;
    let old_policy = fields.int();
    let original = owned(alloc, fields.bytes())?;
    let overriding = fields.flag();
    let time = fields.int64();
    let terms = owned_units(alloc, fields.units())?;
    let status = fields.int();
    let policy = fields.int();
    let (info, left) = info_of(alloc, fields)?;
    let left = Blob::from_slice(alloc, left)?;
    Ok(More {
        type_mask,
        referrer,
        old_policy,
        original,
        overriding,
        time,
        terms,
        status,
        policy,
        info,
        left,
    })
}
