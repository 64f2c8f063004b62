//! What calls answer, in words.

use log_writer::{First, JournalFault};
use session_disk::DiskError;
use std::alloc::{AllocError, Global};

/// The answer of a call that changes a disk.
pub(crate) fn said(outcome: Result<(), DiskError>) -> &'static str {
    match outcome {
        Ok(()) => "ok",
        Err(error) => said_error(error),
    }
}

pub(crate) fn said_error(error: DiskError) -> &'static str {
    match error {
        DiskError::Failed => "failed",
        DiskError::Memory => "memory ran out",
    }
}

/// The answer of a call of a journal.
pub(crate) fn said_of_journal(
    alloc: Global,
    outcome: Result<(), JournalFault>,
) -> Result<String, AllocError> {
    match outcome {
        Ok(()) => String::from_str(alloc, "ok"),
        Err(JournalFault::AlreadyFailed(first)) => said_before(alloc, first),
        Err(fault) => format!(in alloc; "{fault}"),
    }
}

fn said_before(alloc: Global, first: First) -> Result<String, AllocError> {
    let fault = JournalFault::AlreadyFailed(first);
    let first = said_first(alloc, first)?;
    format!(in alloc; "{fault}: {}", first.as_str())
}

/// The first failure of a journal.
pub(crate) fn said_first(alloc: Global, first: First) -> Result<String, AllocError> {
    match first {
        First::Disk { failures } => format!(in alloc; "disk, failure {failures}"),
        First::Memory => String::from_str(alloc, "memory"),
    }
}

/// A number, or `none`.
pub(crate) fn said_number(alloc: Global, number: Option<u64>) -> Result<String, AllocError> {
    match number {
        Some(number) => format!(in alloc; "{number}"),
        None => String::from_str(alloc, "none"),
    }
}
