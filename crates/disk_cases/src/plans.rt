//! Failures and crashes of a disk:
//!
//! - `FAILURE, FAILURE, ..`: calls that are to fail, where a failure is `CALL NTH`, then `part N` where so much of the
//!   work is done, then `lasting` where all later calls fail too; `none` for none
//! - `STAMP:LENGTH STAMP:LENGTH ..`: just these files, as a crash leaves them

use crate::number_words::number;
use case_files::CaseFault;
use session_disk::{Call, Failure, Keep};
use std::alloc::Global;

/// The failures of a step.
pub fn read_failures(alloc: Global, text: &str) -> Result<Vec<Failure>, CaseFault> {
    let mut failures = Vec::new(alloc);
    if text == "none" {
        return Ok(failures);
    }
    for one in text.split(", ") {
        failures.push(read_failure(one)?)?;
    }
    Ok(failures)
}

fn read_failure(text: &str) -> Result<Failure, CaseFault> {
    let (once, lasting) = match text.strip_suffix(" lasting") {
        Some(once) => (once, true),
        None => (text, false),
    };
    let (call, done) = match once.split_once(" part ") {
        Some((call, part)) => (call, number(part)?),
        None => (once, 0),
    };
    let Some((call, nth)) = call.split_once(' ') else {
        return Err(CaseFault::Malformed("a call and its number are wanted"));
    };
    Ok(Failure {
        call: read_call(call)?,
        nth: number(nth)?,
        done,
        lasting,
    })
}

fn read_call(word: &str) -> Result<Call, CaseFault> {
    Ok(match word {
        "list" => Call::List,
        "length" => Call::Length,
        "read" => Call::Read,
        "create" => Call::Create,
        "append" => Call::Append,
        "sync" => Call::Sync,
        "remove" => Call::Remove,
        "settle" => Call::Settle,
        _ => return Err(CaseFault::Malformed("a disk has no such call")),
    })
}

/// The files that a crash keeps.
pub fn read_keeps(alloc: Global, text: &str) -> Result<Vec<Keep>, CaseFault> {
    let mut keeps = Vec::new(alloc);
    if text.is_empty() {
        return Ok(keeps);
    }
    for word in text.split(' ') {
        let Some((stamp, bytes)) = word.split_once(':') else {
            return Err(CaseFault::Malformed("a stamp, a colon and a length are wanted"));
        };
        keeps.push(Keep {
            stamp: number(stamp)?,
            bytes: number(bytes)?,
        })?;
    }
    Ok(keeps)
}
