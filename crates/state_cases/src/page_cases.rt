//! Cases of a tab's pages: a line puts one in at an index or prunes.
use crate::case_fault::CaseFault;
use crate::text::{put_int, put_text};
use crate::words::Words;
use navigation_entry::Navigation;
use pickle_cells::{Blob, Text16};
use std::alloc::{AllocError, Global};
use tab_pages::Pages;

/// The index and the URL of each page that is left.
pub(crate) fn pages(alloc: Global, lines: &[Words<'_>]) -> Result<String, CaseFault> {
    let pages = changed(alloc, lines)?;
    let mut out = String::new(alloc);
    put_pages(&mut out, &pages)?;
    Ok(out)
}

fn changed(alloc: Global, lines: &[Words<'_>]) -> Result<Pages, CaseFault> {
    let mut pages = Pages::new(alloc);
    for line in lines {
        change(alloc, &mut pages, *line)?;
    }
    Ok(pages.copy()?)
}

fn change(alloc: Global, pages: &mut Pages, mut words: Words<'_>) -> Result<(), CaseFault> {
    match words.word()? {
        "put" => put_page(alloc, pages, &mut words)?,
        "prune-back" => pages.prune_back(words.number::<i32>()?),
        "prune-front" => pages.prune_front(words.number::<i32>()?),
        "prune" => {
            let index = words.number::<i32>()?;
            pages.prune(index, words.number::<i32>()?);
        }
        _ => return Err(words.malformed()),
    }
    words.end()
}

fn put_page(alloc: Global, pages: &mut Pages, words: &mut Words<'_>) -> Result<(), CaseFault> {
    let index = words.number::<i32>()?;
    if index < 0 {
        return Err(words.malformed());
    }
    let navigation = page(alloc, words.blob(alloc)?)?;
    pages.put(index, navigation)?;
    Ok(())
}

fn page(alloc: Global, url: Blob) -> Result<Navigation, AllocError> {
    let title = Text16::from_text(alloc, "")?;
    let page_state = Blob::from_slice(alloc, &[])?;
    let rest = Blob::from_slice(alloc, &[])?;
    Ok(Navigation::fitted(url, title, page_state, 0, rest))
}

fn put_pages(out: &mut String, pages: &Pages) -> Result<(), AllocError> {
    for place in 0..pages.len() {
        let (index, navigation) = pages.at(place);
        put_int(out, "", i64::from(index))?;
        put_text(out, " ", navigation.url.as_slice())?;
        out.push_str("\n")?;
    }
    Ok(())
}
