//! The reasons why bytes don't read, in words.
use crate::text::{put_count, put_int};
use pickle_cells::PickleFault;
use session_commands::PayloadFault;
use std::alloc::AllocError;

pub(crate) fn put_pickle_fault(
    out: &mut String,
    words: &str,
    fault: PickleFault,
) -> Result<(), AllocError> {
    out.push_str(words)?;
    match fault {
        PickleFault::Short { at } => put_count(out, "short ", u64::from(at)),
        PickleFault::SizeField { said, present } => {
            put_count(out, "size-field ", u64::from(said))?;
            put_count(out, " ", u64::from(present))
        }
        PickleFault::NegativeLength { at, length } => {
            put_count(out, "negative-length ", u64::from(at))?;
            put_int(out, " ", i64::from(length))
        }
    }
}

pub(crate) fn put_payload_fault(out: &mut String, fault: PayloadFault) -> Result<(), AllocError> {
    match fault {
        PayloadFault::UnknownId => out.push_str("unknown-id"),
        PayloadFault::Length { wanted, present } => {
            put_count(out, "length ", u64::from(wanted))?;
            put_count(out, " ", u64::from(present))
        }
        PayloadFault::Pickle(fault) => put_pickle_fault(out, "", fault),
    }
}
