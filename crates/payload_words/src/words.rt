//! The words of a command, by the shape that its id has and its payload as it stands.
ghost use Rattle.std.specs.Prelude.{◌≡◌, ◌≤◌, ◌++◌, length, OnOk};
ghost use Rattle.payload_words.specs.Words.{words};

use crate::fault::put_unknown;
use crate::fixed::put_fixed;
use crate::page::put_navigation;
use crate::pickled::put_pickled;
use payload_rows::{Kinds, Shape};
use std::alloc::{AllocError, Global};

/// Appends the words of a command, each behind a space: those of its fields in the order in which they stand, or why it
/// is raw. `shape` is the one that the family's table has for the id, `None` where it has no row. Numbers are decimal,
/// a flag is `true` or `false`, a text stands between double quotes as `show_bytes` and `show_units` show it, and a
/// pickle's tail is its length in brackets. In a navigation the page state is its length too, and behind the length of
/// its rest come the fields of the rest that read. A raw command has the words `raw unknown-id`, `raw length`,
/// `raw short`, `raw size-field` or `raw negative-length` and the numbers of the fault; id 255 without a payload is
/// `marker`. `out` grows, and a navigation's rest is copied for the time of the call, with an allocation a text; no
/// other memory is taken. After an `Err`, which comes for want of memory alone, some of the words may have been
/// appended.
#[tactic(auto, unfolding(crate::specs::Words::words))]
pub fn put_words(
    alloc: Global,
    shape: Option<Shape>,
    id: u8,
    payload: &[u8],
    out: &mut Vec<u8>,
) -> Result<(), AllocError>
    requires { length payload.now ≤ 65534 }
    ensures { OnOk result (out.new.items ≡ out.old.items ++ words shape id payload.now) }
{
    match shape {
        None => put_unknown(id, payload, out),
        Some(Shape::Navigation) => put_navigation(alloc, payload, out),
        Some(shape) => match shape.kinds() {
            Kinds::Fixed(kinds) => put_fixed(kinds, payload, out),
            Kinds::Pickled(kinds) => put_pickled(kinds, payload, out),
        },
    }
}
