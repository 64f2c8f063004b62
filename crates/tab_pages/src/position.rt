//! Positions in a list.
ghost use Rattle.std.specs.Prelude.{◌≡◌, ◌-◌, ◌<◌, ◌≤◌, ◌^◌, IfSome};
ghost use Rattle.std.specs.Option.{unwrap_or};

/// What was found among so many, else the last position; 0 where there are none.
pub fn or_last(found: Option<usize>, count: usize) -> u32
    requires within { IfSome found (λ position. position < count) }
    requires small { count ≤ 2 ^ 31 }
    ensures { result ≡ unwrap_or found (count - 1) }
{
    match found {
        Some(position) => position as u32,
        None => count.saturating_sub(1) as u32,
    }
}
