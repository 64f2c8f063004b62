//! Cases of what stands behind a navigation's transition.
use crate::case_fault::CaseFault;
use crate::payload::joined;
use crate::text::{put_blob, put_bytes, put_flag, put_int, put_text, put_units};
use crate::words::Words;
use navigation_entry::{More, read_more};
use pickle_cells::Text16;
use std::alloc::{AllocError, Global};

/// The fields that read of the bytes in the lines, a line each, and what is left behind them.
pub(crate) fn fields(alloc: Global, lines: &[Words<'_>]) -> Result<String, CaseFault> {
    let bytes = joined(alloc, lines)?;
    let more = read_more(alloc, bytes.as_slice())?;
    Ok(told(alloc, &more)?)
}

fn told(alloc: Global, more: &More) -> Result<String, AllocError> {
    let mut out = String::new(alloc);
    put_first(&mut out, more)?;
    put_last(&mut out, more)?;
    Ok(out)
}

fn put_first(out: &mut String, more: &More) -> Result<(), AllocError> {
    put_int_field(out, "type-mask ", more.type_mask)?;
    put_blob(out, "\nreferrer ", &more.referrer)?;
    put_int_field(out, "\nold-policy ", more.old_policy)?;
    put_blob(out, "\noriginal ", &more.original)?;
    put_flag_field(out, "\noverriding ", more.overriding)
}

fn put_last(out: &mut String, more: &More) -> Result<(), AllocError> {
    put_int64_field(out, "\ntime ", more.time)?;
    put_terms(out, &more.terms)?;
    put_int_field(out, "\nstatus ", more.status)?;
    put_int_field(out, "\npolicy ", more.policy)?;
    for pair in more.info.as_slice() {
        put_text(out, "\npair ", pair.key.as_slice())?;
        put_text(out, " ", pair.value.as_slice())?;
    }
    put_bytes(out, "\nleft ", more.left.as_slice())
}

fn put_int_field(out: &mut String, words: &str, field: Option<i32>) -> Result<(), AllocError> {
    match field {
        Some(number) => put_int(out, words, i64::from(number)),
        None => Ok(()),
    }
}

fn put_int64_field(out: &mut String, words: &str, field: Option<i64>) -> Result<(), AllocError> {
    match field {
        Some(number) => put_int(out, words, number),
        None => Ok(()),
    }
}

fn put_flag_field(out: &mut String, words: &str, field: Option<bool>) -> Result<(), AllocError> {
    match field {
        Some(flag) => put_flag(out, words, flag),
        None => Ok(()),
    }
}

fn put_terms(out: &mut String, terms: &Option<Text16>) -> Result<(), AllocError> {
    match terms {
        Some(terms) => put_units(out, "\nterms ", terms.units()),
        None => Ok(()),
    }
}
