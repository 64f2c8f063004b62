//! Cases of byte strings and of texts of 16-bit units.
use crate::case_fault::CaseFault;
use crate::text::{put_count, put_text, put_units};
use crate::words::Words;
use pickle_cells::{Blob, Text16};
use std::alloc::{AllocError, Global};
use std::cmp::Ordering;

/// A byte string a line, copied; then how many bytes are left of it when it is emptied.
pub(crate) fn blobs(alloc: Global, lines: &[Words<'_>]) -> Result<String, CaseFault> {
    let mut out = String::new(alloc);
    for line in lines {
        let mut words = *line;
        let blob = words.blob(alloc)?;
        words.end()?;
        put_blob(&mut out, blob)?;
    }
    Ok(out)
}

fn put_blob_copy(out: &mut String, blob: &Blob) -> Result<(), AllocError> {
    let copy = blob.copy()?;
    put_text(out, "", copy.as_slice())
}

fn put_blob(out: &mut String, blob: Blob) -> Result<(), AllocError> {
    put_blob_copy(out, &blob)?;
    put_count(out, " ", blob.emptied().as_slice().len() as u64)?;
    out.push_str("\n")
}

/// The units of a text a line, copied; then how many are left of it when it is emptied.
pub(crate) fn units(alloc: Global, lines: &[Words<'_>]) -> Result<String, CaseFault> {
    let mut out = String::new(alloc);
    for line in lines {
        let mut words = *line;
        let text = words.text16(alloc)?;
        words.end()?;
        put_text16(&mut out, text)?;
    }
    Ok(out)
}

/// What `units` answers, of texts whose units stand as two bytes each.
pub(crate) fn pairs(alloc: Global, lines: &[Words<'_>]) -> Result<String, CaseFault> {
    let mut out = String::new(alloc);
    for line in lines {
        let mut words = *line;
        let text = paired(alloc, &mut words)?;
        words.end()?;
        put_text16(&mut out, text)?;
    }
    Ok(out)
}

// The text whose units stand in the next word.
fn paired(alloc: Global, words: &mut Words<'_>) -> Result<Text16, CaseFault> {
    let bytes = words.bytes(alloc)?;
    if bytes.len() % 2 != 0 {
        return Err(words.malformed());
    }
    Ok(Text16::from_pairs(alloc, bytes.as_slice())?)
}

fn put_units_copy(out: &mut String, text: &Text16) -> Result<(), AllocError> {
    let copy = text.copy()?;
    put_units(out, "", copy.units())
}

fn put_text16(out: &mut String, text: Text16) -> Result<(), AllocError> {
    put_units_copy(out, &text)?;
    put_count(out, " ", text.emptied().units().len() as u64)?;
    out.push_str("\n")
}

/// How two byte strings a line are ordered.
pub(crate) fn blob_orders(alloc: Global, lines: &[Words<'_>]) -> Result<String, CaseFault> {
    let mut out = String::new(alloc);
    for line in lines {
        let mut words = *line;
        let first = words.blob(alloc)?;
        let second = words.blob(alloc)?;
        words.end()?;
        put_order(&mut out, first.cmp(&second))?;
    }
    Ok(out)
}

/// How two texts a line are ordered, whose units stand as two bytes each.
pub(crate) fn pair_orders(alloc: Global, lines: &[Words<'_>]) -> Result<String, CaseFault> {
    let mut out = String::new(alloc);
    for line in lines {
        let mut words = *line;
        let first = paired(alloc, &mut words)?;
        let second = paired(alloc, &mut words)?;
        words.end()?;
        put_order(&mut out, first.cmp(&second))?;
    }
    Ok(out)
}

fn put_order(out: &mut String, order: Ordering) -> Result<(), AllocError> {
    out.push_str(match order {
        Ordering::Less => "less\n",
        Ordering::Equal => "equal\n",
        Ordering::Greater => "greater\n",
    })
}
