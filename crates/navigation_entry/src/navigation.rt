//! A page that a tab has visited.
ghost use Rattle.std.specs.Prelude.{◌≡◌, ◌*◌, ◌%◌, ◌<◌, ◌≤◌, length, IfOk};
ghost use Rattle.navigation_entry.specs.Layouts.{navigation_size};
ghost use Rattle.navigation_entry.specs.Fitting.{limit, kept, sum_with, fitted_url, fitted_title, fitted_page_state};

use pickle_cells::{Blob, Text16};
use std::alloc::AllocError;

/// One page of a tab's history, without its tab and index. It owns its texts; its payload has at most 65,534
/// bytes, and `rest`, what follows the transition there, is a multiple of 4 bytes.
#[derive(Debug, PartialEq, Eq, Drop)]
pub struct Navigation {
    pub url: Blob,
    pub title: Text16,
    pub page_state: Blob,
    pub transition: i32,
    pub rest: Blob,
    pub ghost whole: { length rest % 4 ≡ 0 },
    pub ghost short: { navigation_size (length url) (2 * length title) (length page_state) (length rest) ≤ 65534 },
}

impl Navigation {
    /// A navigation whose long fields are emptied. URL, title and page state are taken in this order, with a
    /// running sum of their bytes, two a unit; a field that would bring the sum to 64,511 or more is emptied and
    /// adds nothing. It takes no memory.
    pub fn fitted(
        url: Blob,
        title: Text16,
        page_state: Blob,
        transition: i32,
        rest: Blob,
    ) -> Navigation
        requires whole { length rest % 4 ≡ 0 }
        requires few { length rest ≤ 984 }
        ensures url { result.url ≡ fitted_url url }
        ensures title { result.title ≡ fitted_title url title }
        ensures page_state { result.page_state ≡ fitted_page_state url title page_state }
        ensures transition { result.transition ≡ transition }
        ensures rest { result.rest ≡ rest }
    {
        let mut sum = 0;
        let url = kept_blob(url, &mut sum);
        let title = kept_text(title, &mut sum);
        let page_state = kept_blob(page_state, &mut sum);
        Navigation {
            url,
            title,
            page_state,
            transition,
            rest,
        }
    }

    /// The same navigation. It makes one allocation a text.
    pub fn copy(&self) -> Result<Navigation, AllocError>
        ensures { IfOk result (λ n. n ≡ self.now) }
    {
        let url = self.url.copy()?;
        let title = self.title.copy()?;
        let page_state = self.page_state.copy()?;
        let rest = self.rest.copy()?;
        Ok(Navigation {
            url,
            title,
            page_state,
            transition: self.transition,
            rest,
        })
    }
}

// The sum of the kept fields stays below this.
const LIMIT: usize = 64_511;

fn kept_blob(field: Blob, sum: &mut usize) -> Blob
    requires { sum.old < limit }
    ensures field { result ≡ kept sum.old (length field) field }
    ensures sum { sum.new ≡ sum_with sum.old (length field) }
{
    let size = field.as_slice().len();
    if *sum + size < LIMIT {
        *sum += size;
        field
    } else {
        field.emptied()
    }
}

fn kept_text(field: Text16, sum: &mut usize) -> Text16
    requires { sum.old < limit }
    ensures field { result ≡ kept sum.old (2 * length field) field }
    ensures sum { sum.new ≡ sum_with sum.old (2 * length field) }
{
    let size = 2 * field.units().len();
    if *sum + size < LIMIT {
        *sum += size;
        field
    } else {
        field.emptied()
    }
}
