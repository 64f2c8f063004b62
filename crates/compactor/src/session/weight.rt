//! The most commands that restate a state.
ghost use Rattle.std.specs.Prelude.{◌≡◌, ◌+◌, min, length, sum_by};
ghost use Rattle.compactor.specs.session.Compaction.{tab_weight, weight, window_weight};

use window_state::{Rows, SessionState, Tab, Window};

/// It stops at the greatest number of its type.
pub(crate) fn of(state: &SessionState) -> usize
    ensures { result ≡ min (weight state.now) usize.MAX }
{
    of_windows(state.windows())
        .saturating_add(of_tabs(state.tabs()))
        .saturating_add(state.groups().len())
        .saturating_add(1)
}

fn of_windows(windows: &Rows<Window>) -> usize
    ensures { result ≡ min (sum_by window_weight windows.now) usize.MAX }
{
    let mut weight: usize = 0;
    for window in windows.iter() {
        weight = weight
            .saturating_add(7)
            .saturating_add(window.info.extra.len());
    }
    weight
}

fn of_tabs(tabs: &Rows<Tab>) -> usize
    ensures { result ≡ min (sum_by tab_weight tabs.now) usize.MAX }
{
    let mut weight: usize = 0;
    for tab in tabs.iter() {
        weight = weight
            .saturating_add(10)
            .saturating_add(tab.pages.len())
            .saturating_add(tab.info.extra.len());
    }
    weight
}
