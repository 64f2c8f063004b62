//! The numbers of a line: plain decimals within their ranges. Each call answers `Number` where its field isn't such
//! a number.
ghost use Rattle.std.specs.Prelude.{◌≡◌, ◌-◌, ◌^◌, ◌≤◌, IfOk, MatchOption};
ghost use Rattle.std.specs.Option.{ok_or};
ghost use Rattle.script_lines.specs.Numbers.{number_in, counted_in, minus_in, signed_of};

use crate::fault::LineFault;
use decimals::read_decimal;

/// The greatest id and the greatest place.
const GREATEST: u64 = (1 << 31) - 1;

/// The greatest moment.
const LAST_MOMENT: u64 = (1 << 63) - 1;

/// The most bytes of a page state.
const STATE_MAX: u64 = 1_000_000;

// From `least` to `greatest`.
#[tactic(auto, unfolding(crate::specs::Numbers::number_in))]
fn number_in(least: u64, greatest: u64, field: &[u8]) -> Result<u64, LineFault>
    ensures value { result ≡ ok_or (number_in least greatest field.now) LineFault.Number }
    ensures range { IfOk result (λ number. (least ≤ number) × (number ≤ greatest)) }
{
    match read_decimal(field) {
        Some(number) if least <= number && number <= greatest => Ok(number),
        _ => Err(LineFault::Number),
    }
}

/// Of a window or a tab, from 1 to 2^31 - 1.
#[tactic(auto, unfolding(crate::specs::Numbers::counted_in))]
pub(crate) fn id(field: &str) -> Result<i32, LineFault>
    ensures { result ≡ ok_or (counted_in 1 (2 ^ 31 - 1) field.now) LineFault.Number }
{
    let number = number_in(1, GREATEST, field.as_bytes())?;
    Ok(number as i32)
}

/// From 0 to 2^31 - 1.
#[tactic(auto, unfolding(crate::specs::Numbers::counted_in))]
pub(crate) fn place(field: &str) -> Result<i32, LineFault>
    ensures { result ≡ ok_or (counted_in 0 (2 ^ 31 - 1) field.now) LineFault.Number }
{
    let number = number_in(0, GREATEST, field.as_bytes())?;
    Ok(number as i32)
}

/// From 0 to 2^63 - 1.
#[tactic(auto, unfolding(crate::specs::Numbers::counted_in))]
pub(crate) fn moment(field: &str) -> Result<i64, LineFault>
    ensures { result ≡ ok_or (counted_in 0 (2 ^ 63 - 1) field.now) LineFault.Number }
{
    let number = number_in(0, LAST_MOMENT, field.as_bytes())?;
    Ok(number as i64)
}

/// The bytes of a page state, from 0 to 1,000,000; 0 where there is no field.
pub(crate) fn state_length(field: Option<&str>) -> Result<u32, LineFault>
    ensures { MatchOption field.entry (result ≡ Ok 0)
        (λ field. result ≡ ok_or (number_in 0 1000000 field.now) LineFault.Number) }
{
    let Some(field) = field else {
        return Ok(0);
    };
    let number = number_in(0, STATE_MAX, field.as_bytes())?;
    Ok(number as u32)
}

/// One of the two numbers of a group's id.
pub(crate) fn half(field: &str) -> Result<u64, LineFault>
    ensures { result ≡ ok_or (number_in 0 (2 ^ 64 - 1) field.now) LineFault.Number }
{
    number_in(0, u64::MAX, field.as_bytes())
}

/// Of a group.
pub(crate) fn colour(field: &str) -> Result<u32, LineFault>
    ensures { result ≡ ok_or (number_in 0 (2 ^ 32 - 1) field.now) LineFault.Number }
{
    let number = number_in(0, u32::MAX as u64, field.as_bytes())?;
    Ok(number as u32)
}

/// Any number of 32 bits, with a minus sign only before one that isn't 0.
pub(crate) fn signed(field: &str) -> Result<i32, LineFault>
    ensures { result ≡ ok_or (signed_of field.now) LineFault.Number }
{
    match field.strip_prefix('-') {
        Some(digits) => minus(digits),
        None => place(field),
    }
}

// The negative number with these digits behind its sign.
#[tactic(auto, unfolding(crate::specs::Numbers::minus_in))]
fn minus(digits: &str) -> Result<i32, LineFault>
    ensures { result ≡ ok_or (minus_in 1 (2 ^ 31) digits.now) LineFault.Number }
{
    let number = number_in(1, 1 << 31, digits.as_bytes())?;
    Ok(-(number as i64) as i32)
}
