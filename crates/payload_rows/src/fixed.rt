//! Payloads of fixed length, one reader a shape.
ghost use Rattle.std.specs.Prelude.{◌≡◌, ◌+◌, ◌<◌, ◌≤◌, length};
ghost use Rattle.std.specs.Int.{w64, from_le_bytes};
ghost use Rattle.payload_rows.specs.FixedReading.{int_at, int64_at, uint64_at, flag_at};
ghost use Rattle.payload_rows.specs.Contents.{IsRead};
ghost use Rattle.payload_rows.specs.declared.shape.Shape.TheVariants.{Flag, Int, TwoInts, ThreeInts, IntFlag, IntTime, TwoIntsTime, WindowBounds, TabGroup};

use crate::fields::Fields;
use navigation_entry::Bounds;

#[tactic(auto, using(crate::proofs::ShapeLaws::flag_read))]
pub(crate) fn flag(payload: &[u8]) -> Option<Fields>
    ensures { IsRead Flag payload.now result }
{
    if payload.len() != 1 {
        return None;
    }
    Some(Fields::Flag(flag_in(payload, 0)))
}

#[tactic(auto, using(crate::proofs::ShapeLaws::int_read))]
pub(crate) fn int(payload: &[u8]) -> Option<Fields>
    ensures { IsRead Int payload.now result }
{
    if payload.len() != 4 {
        return None;
    }
    Some(Fields::Int(int_in(payload, 0)))
}

#[tactic(auto, using(crate::proofs::ShapeLaws::two_ints_read))]
pub(crate) fn two_ints(payload: &[u8]) -> Option<Fields>
    ensures { IsRead TwoInts payload.now result }
{
    if payload.len() != 8 {
        return None;
    }
    Some(Fields::TwoInts(int_in(payload, 0), int_in(payload, 4)))
}

#[tactic(auto, using(crate::proofs::ShapeLaws::three_ints_read))]
pub(crate) fn three_ints(payload: &[u8]) -> Option<Fields>
    ensures { IsRead ThreeInts payload.now result }
{
    if payload.len() != 12 {
        return None;
    }
    let (first, second, third) = (int_in(payload, 0), int_in(payload, 4), int_in(payload, 8));
    Some(Fields::ThreeInts(first, second, third))
}

#[tactic(auto, using(crate::proofs::ShapeLaws::int_flag_read))]
pub(crate) fn int_flag(payload: &[u8]) -> Option<Fields>
    ensures { IsRead IntFlag payload.now result }
{
    if payload.len() != 8 {
        return None;
    }
    Some(Fields::IntFlag(int_in(payload, 0), flag_in(payload, 4)))
}

#[tactic(auto, using(crate::proofs::ShapeLaws::int_time_read))]
pub(crate) fn int_time(payload: &[u8]) -> Option<Fields>
    ensures { IsRead IntTime payload.now result }
{
    if payload.len() != 16 {
        return None;
    }
    Some(Fields::IntTime(int_in(payload, 0), int64_in(payload, 8)))
}

#[tactic(auto, using(crate::proofs::ShapeLaws::two_ints_time_read))]
pub(crate) fn two_ints_time(payload: &[u8]) -> Option<Fields>
    ensures { IsRead TwoIntsTime payload.now result }
{
    if payload.len() != 16 {
        return None;
    }
    let (first, second, time) = (int_in(payload, 0), int_in(payload, 4), int64_in(payload, 8));
    Some(Fields::TwoIntsTime(first, second, time))
}

#[tactic(auto, using(crate::proofs::ShapeLaws::six_ints_read))]
pub(crate) fn window_bounds(payload: &[u8]) -> Option<Fields>
    ensures { IsRead WindowBounds payload.now result }
{
    if payload.len() != 24 {
        return None;
    }
    Some(Fields::WindowBounds(int_in(payload, 0), bounds_in(payload)))
}

#[tactic(auto, using(crate::proofs::ShapeLaws::group_read))]
pub(crate) fn tab_group(payload: &[u8]) -> Option<Fields>
    ensures { IsRead TabGroup payload.now result }
{
    if payload.len() != 32 {
        return None;
    }
    let (high, low) = (uint64_in(payload, 8), uint64_in(payload, 16));
    Some(Fields::TabGroup(int_in(payload, 0), high, low, flag_in(payload, 24)))
}

fn bounds_in(payload: &[u8]) -> Bounds
    requires { length payload.now ≡ 24 }
    ensures x { result.x ≡ int_at 4 payload.now }
    ensures y { result.y ≡ int_at 8 payload.now }
    ensures width { result.width ≡ int_at 12 payload.now }
    ensures height { result.height ≡ int_at 16 payload.now }
    ensures show { result.show ≡ int_at 20 payload.now }
{
    Bounds {
        x: int_in(payload, 4),
        y: int_in(payload, 8),
        width: int_in(payload, 12),
        height: int_in(payload, 16),
        show: int_in(payload, 20),
    }
}

#[tactic(auto, unfolding(crate::specs::FixedReading::int_at))]
fn int_in(bytes: &[u8], place: usize) -> i32
    requires { place + 4 ≤ length bytes.now }
    ensures { result ≡ int_at place bytes.now }
{
    let word = &bytes[place..place + 4];
    u32::from_le_bytes([word[0], word[1], word[2], word[3]]).cast_signed()
}

#[tactic(auto, unfolding(crate::specs::FixedReading::int64_at))]
fn int64_in(bytes: &[u8], place: usize) -> i64
    requires { place + 8 ≤ length bytes.now }
    ensures { result ≡ int64_at place bytes.now }
{
    uint64_of(&bytes[place..place + 8]).cast_signed()
}

#[tactic(auto, unfolding(crate::specs::FixedReading::uint64_at))]
fn uint64_in(bytes: &[u8], place: usize) -> u64
    requires { place + 8 ≤ length bytes.now }
    ensures { result ≡ uint64_at place bytes.now }
{
    uint64_of(&bytes[place..place + 8])
}

fn uint64_of(word: &[u8]) -> u64
    requires { length word.now ≡ 8 }
    ensures { result ≡ from_le_bytes w64 word.now }
{
    u64::from_le_bytes([
        word[0], word[1], word[2], word[3], word[4], word[5], word[6], word[7],
    ])
}

#[tactic(auto, unfolding(crate::specs::FixedReading::flag_at))]
fn flag_in(bytes: &[u8], place: usize) -> bool
    requires { place < length bytes.now }
    ensures { result ≡ flag_at place bytes.now }
{
    bytes[place] != 0
}
