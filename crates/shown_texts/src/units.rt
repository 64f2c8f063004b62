//! 16-bit units as they are shown: a printable character as a byte is, and any other unit as four hexadecimal digits.
//! Each unit is shown by itself, so half a surrogate pair is as good as any.
ghost use Rattle.std.specs.Prelude.{◌≡◌, ℕ, List, ◌++◌, ◌<◌, ◌^◌, length, take, is_ok, if◌then◌else◌, OnOk, OnErr};
ghost use Rattle.std.specs.List.{AllByRecursion};
ghost use Rattle.shown_texts.specs.Shown.{shown_unit, shown_units, IsQuotable};

use crate::escapes::{hexadecimal_digit, put_printable};
use std::alloc::AllocError;

/// Appends these units as they are shown. What is appended may stand between double quotes in a line, and no other
/// units are shown by it. After an `Err` `out` is as before.
pub fn show_units(text: &[u16], out: &mut Vec<u8>) -> Result<(), AllocError>
    ensures ok { OnOk result (out.new.items ≡ out.old.items ++ shown_units text.now) }
    ensures err { OnErr result (out.new.items ≡ out.old.items) }
    ensures quotable { AllByRecursion IsQuotable (shown_units text.now) }
    ensures only { (other : List ℕ) → AllByRecursion (λ u. u < 2 ^ 16) other →
        shown_units other ≡ shown_units text.now → other ≡ text.now }
{
    let start = out.len();
    match append_units(text, out) {
        Ok(()) => Ok(()),
        Err(error) => {
            out.truncate(start);
            Err(error)
        }
    }
}

fn append_units(text: &[u16], out: &mut Vec<u8>) -> Result<(), AllocError>
    ensures ok { OnOk result (out.new.items ≡ out.old.items ++ shown_units text.now) }
    ensures err { OnErr result (take (length out.old.items) out.new.items ≡ out.old.items) }
{
    for unit in text {
        append_unit(*unit, out)?;
    }
    Ok(())
}

#[tactic(auto, unfolding(crate::specs::Shown::shown_unit))]
pub(crate) fn append_unit(unit: u16, out: &mut Vec<u8>) -> Result<(), AllocError>
    ensures { out.new.items ≡ (if is_ok result then out.old.items ++ shown_unit unit else out.old.items) }
{
    match unit {
        0x20..=0x7E => put_printable(unit as u8, out),
        _ => {
            let first = hexadecimal_digit((unit / 4096 % 16) as u8);
            let second = hexadecimal_digit((unit / 256 % 16) as u8);
            let third = hexadecimal_digit((unit / 16 % 16) as u8);
            let fourth = hexadecimal_digit((unit % 16) as u8);
            out.extend_from_slice(&[b'\\', b'u', first, second, third, fourth])
        }
    }
}
