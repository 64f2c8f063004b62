//! What bytes and units are shown with alike: printable characters, and the hexadecimal digits of what isn't
//! printable.
ghost use Rattle.std.specs.Prelude.{◌≡◌, ◌++◌, ◌<◌, is_ok, if◌then◌else◌};
ghost use Rattle.shown_texts.specs.Shown.{shown_printable, hexadecimal_digit};

use std::alloc::AllocError;

/// Appends the shown form of a printable character, whole or not at all.
pub(crate) fn put_printable(c: u8, out: &mut Vec<u8>) -> Result<(), AllocError>
    ensures { out.new.items ≡ (if is_ok result then out.old.items ++ shown_printable c else out.old.items) }
{
    match c {
        b'\\' => out.extend_from_slice(b"\\\\"),
        b'"' => out.extend_from_slice(b"\\x22"),
        _ => out.extend_from_slice(&[c]),
    }
}

/// The hexadecimal digit of a number, in lower case.
pub(crate) fn hexadecimal_digit(n: u8) -> u8
    requires { n < 16 }
    ensures { result ≡ hexadecimal_digit n }
{
    if n < 10 { b'0' + n } else { b'a' + (n - 10) }
}
