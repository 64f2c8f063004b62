//! 16-bit units that stand as pairs of bytes, as in a payload, shown where they stand: no text of units is made of
//! them.
ghost use Rattle.std.specs.Prelude.{◌≡◌, ℕ, List, ◌++◌, ◌<◌, ◌^◌, length, take, OnOk, OnErr};
ghost use Rattle.std.specs.List.{AllByRecursion};
ghost use Rattle.pickle_cells.specs.CellReading.{units_of};
ghost use Rattle.shown_texts.specs.Shown.{shown_units, IsQuotable};

use crate::units::append_unit;
use std::alloc::AllocError;

/// Appends the units that stand in these bytes, two bytes a unit, little-endian, as `show_units` shows them. A last
/// byte that has no second one is passed over. After an `Err` `out` is as before.
pub fn show_pairs(bytes: &[u8], out: &mut Vec<u8>) -> Result<(), AllocError>
    ensures ok { OnOk result (out.new.items ≡ out.old.items ++ shown_units (units_of bytes.now)) }
    ensures err { OnErr result (out.new.items ≡ out.old.items) }
    ensures quotable { AllByRecursion IsQuotable (shown_units (units_of bytes.now)) }
    ensures only { (other : List ℕ) → AllByRecursion (λ u. u < 2 ^ 16) other →
        shown_units other ≡ shown_units (units_of bytes.now) → other ≡ units_of bytes.now }
{
    let start = out.len();
    match append_pairs(bytes, out) {
        Ok(()) => Ok(()),
        Err(error) => {
            out.truncate(start);
            Err(error)
        }
    }
}

fn append_pairs(bytes: &[u8], out: &mut Vec<u8>) -> Result<(), AllocError>
    ensures ok { OnOk result (out.new.items ≡ out.old.items ++ shown_units (units_of bytes.now)) }
    ensures err { OnErr result (take (length out.old.items) out.new.items ≡ out.old.items) }
{
    for i in 0..bytes.len() / 2 {
        append_unit(u16::from_le_bytes([bytes[2 * i], bytes[2 * i + 1]]), out)?;
    }
    Ok(())
}
