//! Bytes as they are shown: a printable character as itself, but for a quote and a backslash, and any other byte as
//! two hexadecimal digits.
ghost use Rattle.std.specs.Prelude.{◌≡◌, ℕ, List, ◌++◌, ◌<◌, ◌^◌, length, take, is_ok, if◌then◌else◌, OnOk, OnErr};
ghost use Rattle.std.specs.List.{AllByRecursion};
ghost use Rattle.shown_texts.specs.Shown.{shown_byte, shown_bytes, IsQuotable};

use crate::escapes::{hexadecimal_digit, put_printable};
use std::alloc::AllocError;

/// Appends these bytes as they are shown. What is appended may stand between double quotes in a line, and no other
/// bytes are shown by it. After an `Err` `out` is as before.
pub fn show_bytes(text: &[u8], out: &mut Vec<u8>) -> Result<(), AllocError>
    ensures ok { OnOk result (out.new.items ≡ out.old.items ++ shown_bytes text.now) }
    ensures err { OnErr result (out.new.items ≡ out.old.items) }
    ensures quotable { AllByRecursion IsQuotable (shown_bytes text.now) }
    ensures only { (other : List ℕ) → AllByRecursion (λ c. c < 2 ^ 8) other →
        shown_bytes other ≡ shown_bytes text.now → other ≡ text.now }
{
    let start = out.len();
    match append_bytes(text, out) {
        Ok(()) => Ok(()),
        Err(error) => {
            out.truncate(start);
            Err(error)
        }
    }
}

fn append_bytes(text: &[u8], out: &mut Vec<u8>) -> Result<(), AllocError>
    ensures ok { OnOk result (out.new.items ≡ out.old.items ++ shown_bytes text.now) }
    ensures err { OnErr result (take (length out.old.items) out.new.items ≡ out.old.items) }
{
    for byte in text {
        append_byte(*byte, out)?;
    }
    Ok(())
}

#[tactic(auto, unfolding(crate::specs::Shown::shown_byte))]
fn append_byte(byte: u8, out: &mut Vec<u8>) -> Result<(), AllocError>
    ensures { out.new.items ≡ (if is_ok result then out.old.items ++ shown_byte byte else out.old.items) }
{
    match byte {
        0x20..=0x7E => put_printable(byte, out),
        _ => {
            let (high, low) = (
                hexadecimal_digit(byte / 16 % 16),
                hexadecimal_digit(byte % 16),
            );
            out.extend_from_slice(&[b'\\', b'x', high, low])
        }
    }
}
