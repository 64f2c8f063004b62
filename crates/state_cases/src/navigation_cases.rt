//! Cases of navigations: their payloads, and what is kept of long ones.
use crate::case_fault::CaseFault;
use crate::fault_text::put_pickle_fault;
use crate::payload::Payload;
use crate::text::{put_bytes, put_count, put_int, put_pairs, put_text};
use crate::words::Words;
use navigation_entry::{Navigation, NavigationRef, read_navigation, write_navigation};
use pickle_cells::Blob;
use std::alloc::{AllocError, Global};

/// What the payload in the lines says, and the payload that is written for it; or why it doesn't read.
pub(crate) fn navigations(
    alloc: Global,
    question: Words<'_>,
    lines: &[Words<'_>],
) -> Result<String, CaseFault> {
    let payload = Payload::joined(alloc, question, lines)?;
    let mut out = String::new(alloc);
    match read_navigation(payload.bytes.as_slice()) {
        Ok(found) => put_navigation(&mut out, &found)?,
        Err(fault) => put_pickle_fault(&mut out, "", fault)?,
    }
    Ok(out)
}

fn put_navigation(out: &mut String, found: &NavigationRef<'_>) -> Result<(), AllocError> {
    put_fields(out, found)?;
    let alloc = *out.allocator();
    let navigation = copied(alloc, found)?;
    let written = write_navigation(alloc, found.tab, found.index, &navigation)?;
    put_bytes(out, "\n", written.as_slice())
}

fn put_fields(out: &mut String, found: &NavigationRef<'_>) -> Result<(), AllocError> {
    put_int(out, "tab ", i64::from(found.tab))?;
    put_int(out, " index ", i64::from(found.index))?;
    put_text(out, " url ", found.url)?;
    put_pairs(out, " title ", found.title)?;
    put_text(out, " page-state ", found.page_state)?;
    put_int(out, " transition ", i64::from(found.transition))?;
    put_bytes(out, " rest ", found.rest)
}

fn copied(alloc: Global, found: &NavigationRef<'_>) -> Result<Navigation, AllocError> {
    found.own(alloc)?.copy()
}

/// Of a URL, a title, a page state and a rest in each line: how long what is kept of the first three is, and the
/// payload.
pub(crate) fn fitted(alloc: Global, lines: &[Words<'_>]) -> Result<String, CaseFault> {
    let mut out = String::new(alloc);
    for line in lines {
        let navigation = fitted_navigation(alloc, *line)?;
        put_lengths(&mut out, &navigation)?;
        out.push_str("\n")?;
    }
    Ok(out)
}

fn fitted_navigation(alloc: Global, mut words: Words<'_>) -> Result<Navigation, CaseFault> {
    let url = words.blob(alloc)?;
    let title = words.text16(alloc)?;
    let page_state = words.blob(alloc)?;
    let rest = words.all_bytes(alloc)?;
    if rest.len() % 4 != 0 {
        return Err(words.malformed());
    }
    if rest.len() > 984 {
        return Err(words.malformed());
    }
    let rest = Blob::from_slice(alloc, rest.as_slice())?;
    Ok(Navigation::fitted(url, title, page_state, 0, rest))
}

fn put_lengths(out: &mut String, navigation: &Navigation) -> Result<(), AllocError> {
    put_count(out, "url ", navigation.url.as_slice().len() as u64)?;
    put_count(out, " title ", navigation.title.units().len() as u64)?;
    put_count(
        out,
        " page-state ",
        navigation.page_state.as_slice().len() as u64,
    )?;
    let written = write_navigation(*out.allocator(), 2, 0, navigation)?;
    put_count(out, " payload ", written.len() as u64)
}
