//! Cases of values under keys: a line sets the value of a key.
use crate::case_fault::CaseFault;
use crate::text::put_text;
use crate::words::Words;
use std::alloc::{AllocError, Global};
use window_state::Extra;

/// The pairs of a key and its value.
pub(crate) fn pairs(alloc: Global, lines: &[Words<'_>]) -> Result<String, CaseFault> {
    let extra = all_set(alloc, lines)?;
    Ok(copied_text(alloc, &extra)?)
}

fn copied_text(alloc: Global, extra: &Extra) -> Result<String, AllocError> {
    let copy = extra.copy()?;
    let mut out = String::new(alloc);
    put_extra(&mut out, "\n", &copy)?;
    Ok(out)
}

fn all_set(alloc: Global, lines: &[Words<'_>]) -> Result<Extra, CaseFault> {
    let mut extra = Extra::new(alloc);
    for line in lines {
        set(alloc, &mut extra, *line)?;
    }
    Ok(extra)
}

fn set(alloc: Global, extra: &mut Extra, mut words: Words<'_>) -> Result<(), CaseFault> {
    let key = words.blob(alloc)?;
    let value = words.blob(alloc)?;
    words.end()?;
    extra.set(key, value)?;
    Ok(())
}

/// Each pair behind these words.
pub(crate) fn put_extra(out: &mut String, words: &str, extra: &Extra) -> Result<(), AllocError> {
    for place in 0..extra.len() {
        let (key, value) = extra.at(place);
        put_text(out, words, key.as_slice())?;
        put_text(out, " ", value.as_slice())?;
    }
    Ok(())
}
