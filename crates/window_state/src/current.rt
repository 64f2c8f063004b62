//! The index of a tab's current page when pages go.
ghost use Rattle.std.specs.Prelude.{◌≡◌};
ghost use Rattle.window_state.specs.Changes.{current_front, current_pruned};

/// When pages at the front go.
pub(crate) fn front(count: i32, current: i32) -> i32
    ensures { result ≡ current_front count current }
{
    if count <= 0 {
        return current;
    }
    let lowered = i64::from(current) - i64::from(count);
    if lowered < -1 {
        return -1;
    }
    lowered as i32
}

/// When pages in a range go.
pub(crate) fn pruned(first: i32, count: i32, current: i32) -> i32
    ensures { result ≡ current_pruned first count current }
{
    if first < 0 {
        return current;
    }
    if count <= 0 {
        return current;
    }
    if current < first {
        return current;
    }
    if i64::from(current) < i64::from(first) + i64::from(count) {
        return first - 1;
    }
    current - count
}
