//! The pages that verbs make: a page as it is visited, and a page under another title.
//! Texts that are too long for a payload are emptied, as wherever a page is made.
ghost use Rattle.std.specs.Prelude.{◌≡◌, ◌≤◌, [], length, IfOk};
ghost use Rattle.browser_model.specs.Navigations.{titled_page, visit_rest, visit_state, visited_page};
ghost use Rattle.browser_driver.specs.MadePages.{short_state, untitled};

use navigation_entry::Navigation;
use pickle_cells::{Blob, Text16};
use std::alloc::{AllocError, Global};

/// The most bytes of a rest behind which texts are fitted.
const LONGEST_REST: usize = 984;

/// No page state with so many bytes fits.
const TOO_LONG: u32 = 64_511;

/// A page as it is visited at a moment, with a page state of so many bytes.
pub(crate) fn visited_page(
    alloc: Global,
    url: &Blob,
    state_len: u32,
    title: &Text16,
    moment: i64,
) -> Result<Navigation, AllocError>
    ensures { IfOk result (λ page. page ≡ visited_page url.now title.now (visit_state state_len) moment) }
{
    let url = url.copy()?;
    let title = title.copy()?;
    let page_state = page_state(alloc, state_len)?;
    let rest = visit_rest(alloc, moment)?;
    Ok(Navigation::fitted(url, title, page_state, 0, rest))
}

// Each byte is its place, mod 251. One that wouldn't fit is empty from the start.
fn page_state(alloc: Global, len: u32) -> Result<Blob, AllocError>
    ensures { IfOk result (λ bytes. bytes ≡ short_state len) }
{
    if len >= TOO_LONG {
        return Blob::from_slice(alloc, &[]);
    }
    let bytes = counted_bytes(alloc, len)?;
    Blob::from_slice(alloc, bytes.as_slice())
}

fn counted_bytes(alloc: Global, len: u32) -> Result<Vec<u8>, AllocError>
    ensures { IfOk result (λ bytes. bytes.items ≡ visit_state len) }
{
    let mut bytes = Vec::with_capacity(alloc, len as usize)?;
    for place in 0..len {
        bytes.push((place % 251) as u8)?;
    }
    Ok(bytes)
}

// What stands behind the transition: everywhere 0, the number of no texts too, but for the time and the status 200.
fn visit_rest(alloc: Global, moment: i64) -> Result<Blob, AllocError>
    ensures { IfOk result (λ rest. rest ≡ visit_rest moment) }
{
    let mut rest = Vec::with_capacity(alloc, 44)?;
    rest.extend_from_slice(&[0; 20])?;
    rest.extend_from_slice(&moment.to_le_bytes())?;
    rest.extend_from_slice(&[0, 0, 0, 0, 200, 0, 0, 0, 0, 0, 0, 0, 0, 0, 0, 0])?;
    Blob::from_slice(alloc, rest.as_slice())
}

/// The page under a title: fitted anew where its rest is short enough, else it has no title.
pub(crate) fn titled_page(
    alloc: Global,
    title: &Text16,
    page: &Navigation,
) -> Result<Navigation, AllocError>
    ensures { IfOk result (λ titled. titled ≡ titled_page title.now page.now) }
{
    if page.rest.as_slice().len() > LONGEST_REST {
        return untitled_page(alloc, page);
    }
    fitted_page(title, page)
}

fn fitted_page(title: &Text16, page: &Navigation) -> Result<Navigation, AllocError>
    requires { length page.now.rest ≤ 984 }
    ensures { IfOk result (λ titled. titled ≡ titled_page title.now page.now) }
{
    let url = page.url.copy()?;
    let title = title.copy()?;
    let page_state = page.page_state.copy()?;
    let rest = page.rest.copy()?;
    Ok(Navigation::fitted(url, title, page_state, page.transition, rest))
}

fn untitled_page(alloc: Global, page: &Navigation) -> Result<Navigation, AllocError>
    ensures { IfOk result (λ titled. titled ≡ untitled page.now) }
{
    let url = page.url.copy()?;
    let title = no_title(alloc)?;
    let page_state = page.page_state.copy()?;
    let rest = page.rest.copy()?;
    Ok(Navigation {
        url,
        title,
        page_state,
        transition: page.transition,
        rest,
    })
}

/// The empty title.
#[tactic(auto, unfolding(pickle_cells::specs::CellReading::units_of))]
pub(crate) fn no_title(alloc: Global) -> Result<Text16, AllocError>
    ensures { IfOk result (λ title. title ≡ []) }
{
    Text16::from_pairs(alloc, &[])
}
