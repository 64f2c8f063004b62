//! The commands that close the gaps between the indices of a tab's pages, from the front.
ghost use Rattle.std.specs.Prelude.{◌≡◌, ◌<◌, ◌≤ℤ◌, ◌^◌, ◌++◌, pos, map, OnOk};
ghost use Rattle.browser_model.specs.Tidying.{gaps};
ghost use Rattle.session_tidying.specs.Gaps.{gap_before, gap_pruned};

use session_commands::SessionCommand;
use std::alloc::AllocError;
use window_state::Tab;

/// Each gap before a page is pruned, after those before it.
pub(crate) fn push(tab: &Tab, out: &mut Vec<SessionCommand>) -> Result<(), AllocError>
    ensures { OnOk result
        (out.new.items ≡ out.old.items ++ map (gap_pruned tab.now.info.id) (gaps 0 (pos 0) tab.now.pages)) }
{
    // Their number says that the pages stand by rising index.
    let _count = tab.pages.len();
    // How many pages stand before, and the index of the next one without a gap.
    let mut place = 0;
    let mut next = 0;
    for page in tab.pages.iter() {
        push_gap(tab.info.id, place, next, page.0, out)?;
        place += 1;
        next = i64::from(page.0) + 1;
    }
    Ok(())
}

// The gap before a page at the index, behind so many pages.
fn push_gap(
    tab: i32,
    place: u32,
    next: i64,
    index: i32,
    out: &mut Vec<SessionCommand>,
) -> Result<(), AllocError>
    requires place { place < 2 ^ 31 }
    requires next { pos 0 ≤ℤ next }
    ensures { OnOk result (out.new.items ≡ out.old.items ++ map (gap_pruned tab) (gap_before place next index)) }
{
    let index = i64::from(index);
    if index <= next {
        return Ok(());
    }
    out.push(SessionCommand::Pruned {
        tab,
        index: place as i32,
        count: (index - next) as i32,
    })?;
    Ok(())
}
