//! Numbers in a line: decimal, and hexadecimal with all eight digits.
ghost use Rattle.std.specs.Prelude.{◌≡◌, ◌++◌, ◌%◌, OnOk};
ghost use Rattle.std.specs.Fmt.{decimal};
ghost use Rattle.shown_texts.specs.Shown.{hexadecimal_digit};
ghost use Rattle.file_reports.specs.FileKinds.{hexadecimal};

use itoa::Buffer;
use std::alloc::AllocError;

/// Appends a number in decimal.
pub(crate) fn put_decimal(n: u64, out: &mut Vec<u8>) -> Result<(), AllocError>
    ensures { OnOk result (out.new.items ≡ out.old.items ++ decimal n) }
{
    out.extend_from_slice(Buffer::new().format(n).as_bytes())?;
    Ok(())
}

/// Appends a number in eight hexadecimal digits, in lower case.
pub(crate) fn put_hexadecimal(n: u32, out: &mut Vec<u8>) -> Result<(), AllocError>
    ensures { OnOk result (out.new.items ≡ out.old.items ++ hexadecimal n) }
{
    out.extend_from_slice(&hexadecimal(n))?;
    Ok(())
}

#[tactic(auto, unfolding(crate::specs::FileKinds::hexadecimal))]
fn hexadecimal(n: u32) -> [u8; 8]
    ensures { result ≡ hexadecimal n }
{
    [
        last_digit(n / 0x1000_0000),
        last_digit(n / 0x100_0000),
        last_digit(n / 0x10_0000),
        last_digit(n / 0x1_0000),
        last_digit(n / 0x1000),
        last_digit(n / 0x100),
        last_digit(n / 0x10),
        last_digit(n),
    ]
}

// The last hexadecimal digit of a number.
fn last_digit(n: u32) -> u8
    ensures { result ≡ hexadecimal_digit (n % 16) }
{
    let digit = (n % 16) as u8;
    if digit < 10 {
        b'0' + digit
    } else {
        b'a' + (digit - 10)
    }
}
