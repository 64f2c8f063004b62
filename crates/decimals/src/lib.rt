//! Plain decimals, as numbers stand in scripts, in command lines and in the names of files: digits alone, with
//! no sign and no leading zero.
//!
//! ```
//! let stamp = read_decimal(b"1700000000");
//! assert_eq!(rt; stamp, Some(1_700_000_000));
//! assert_eq!(rt; read_decimal(b"007"), None);
//! ```
#![tactic(auto)]

ghost use Rattle.std.specs.Prelude.{◌≡◌, ℕ, ◌<◌, ◌^◌, IfSome, IfNone};
ghost use Rattle.std.specs.Fmt.{decimal};
ghost use Rattle.std.specs.Char.{is_ascii_digit};
ghost use Rattle.std.specs.List.{list_all};
ghost use Rattle.decimals.specs.Decimal.{is_plain, number_of};

/// The number below 2^64 of which the text is the plain decimal, None where there is no such number.
pub fn read_decimal(text: &[u8]) -> Option<u64>
    ensures value { result ≡ number_of text.now }
    ensures found { IfSome result (λ n. text.now ≡ decimal n) }
    ensures none { IfNone result ((n : ℕ) → n < 2 ^ 64 → text.now ≡ decimal n → ⊥) }
{
    number(text)
}

fn number(text: &[u8]) -> Option<u64>
    ensures { result ≡ number_of text.now }
{
    if !is_plain(text) {
        return None;
    }
    match str::from_utf8(text) {
        Ok(text) => text.parse::<u64>().ok(),
        Err(_) => None,
    }
}

#[tactic(auto, unfolding(crate::specs::Decimal::is_plain))]
fn is_plain(text: &[u8]) -> bool
    ensures { result ≡ is_plain text.now }
{
    if text.is_empty() {
        return false;
    }
    if text[0] == b'0' {
        return text.len() == 1;
    }
    are_digits(text)
}

fn are_digits(text: &[u8]) -> bool
    ensures { result ≡ list_all is_ascii_digit text.now }
{
    text.iter().all(|c| c.is_ascii_digit())
}
