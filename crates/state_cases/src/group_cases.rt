//! Cases of groups of tabs.
use crate::case_fault::CaseFault;
use crate::fault_text::put_pickle_fault;
use crate::payload::Payload;
use crate::text::{put_bytes, put_count, put_pairs};
use crate::words::Words;
use navigation_entry::{GroupInfo, GroupRef, read_group, write_group};
use std::alloc::{AllocError, Global};

/// What the payload in the lines says, and the payload that is written for it; or why it doesn't read.
pub(crate) fn groups(
    alloc: Global,
    question: Words<'_>,
    lines: &[Words<'_>],
) -> Result<String, CaseFault> {
    let payload = Payload::joined(alloc, question, lines)?;
    let mut out = String::new(alloc);
    match read_group(payload.bytes.as_slice()) {
        Ok(found) => put_group(&mut out, &found)?,
        Err(fault) => put_pickle_fault(&mut out, "", fault)?,
    }
    Ok(out)
}

fn put_group(out: &mut String, found: &GroupRef<'_>) -> Result<(), AllocError> {
    put_count(out, "high ", found.high)?;
    put_count(out, " low ", found.low)?;
    put_pairs(out, " title ", found.title)?;
    put_count(out, " colour ", u64::from(found.colour))?;
    put_bytes(out, " rest ", found.rest)?;
    let alloc = *out.allocator();
    let group = copied(alloc, found)?;
    let written = write_group(alloc, &group)?;
    put_bytes(out, "\n", written.as_slice())
}

fn copied(alloc: Global, found: &GroupRef<'_>) -> Result<GroupInfo, AllocError> {
    found.own(alloc)?.copy()
}
